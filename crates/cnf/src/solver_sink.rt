// A solver that is handed clauses.
ghost use Rattle.answers.specs.Fed.{Fed};
ghost use Rattle.answers.specs.FedLaws.{fed_none, fed_both};

use crate::sink::ClauseSink;
use solver::Solver;

// A solver takes a clause by adding it; one that fits is not refused.
impl<S: Solver> ClauseSink for S {
    ghost ready = { λ s. S.Solver.sound s };

    ghost took = { λ s cs t. Fed (S.Solver.meaning s) cs (S.Solver.meaning t) };

    ghost none = { λ s h. fed_none (S.Solver.meaning s) };

    ghost both = { λ s t u a b x y. fed_both (S.Solver.meaning s) (S.Solver.meaning t) (S.Solver.meaning u) a b x y };

    fn take(&mut self, clause: &[i32]) {
        let _ = self.add(clause);
    }

    fn pass(&mut self, _count: usize) -> bool {
        false
    }
}
