// The search itself.
ghost use Rattle.std.specs.Prelude.{◌≡◌, ◌+◌, true, MatchBool};
ghost use Rattle.solver.specs.Rows.{Row, all_named};
ghost use Rattle.assignment.specs.Assignment.{row_of};
ghost use Rattle.ternary.specs.Stands.{Sound};
ghost use Rattle.ternary.specs.Search.{Same, Sought, values_of};

use crate::TernarySearch;
use crate::status::Pace;
use crate::step::Hints;
use crate::trail::{Mark, clear, negated};
use assignment::Status;

impl<'a> TernarySearch<'a> {
    // Whether a row is sought; the values then stand for one.
    pub(crate) fn search(&mut self, assumed: &[i32]) -> bool
        requires sound { Sound self.old }
        requires named { all_named self.old.vars assumed.now ≡ true }
        ensures sound { Sound self.new }
        ensures same { Same self.old self.new }
        ensures answer { MatchBool result (Sought self.old assumed.now (row_of (values_of self.new))) ((row : Row) → Sought self.old assumed.now row → ⊥) }
    {
        let listed = self.list_occurrences();
        clear(self.values);
        let mut len = 0;
        let mut hints = Hints::default();
        let mut pace = Pace::Thorough;
        loop {
            let next = self.next_step(assumed, pace, hints, len);
            hints = next.hints;
            match next.status {
                Status::Satisfied => return true,
                Status::Conflict => match self.backtrack(len) {
                    None => return false,
                    Some(p) => {
                        let literal = negated(self.trail[p]);
                        self.assign(p, literal, Mark::Settled);
                        len = p + 1;
                        hints = Hints { from: 0, head: p };
                    }
                },
                Status::Forced(literal) => {
                    self.assign(len, literal, Mark::Settled);
                    len += 1;
                }
                Status::Open(literal) => {
                    self.assign(len, literal, Mark::Open);
                    len += 1;
                    pace = listed;
                }
            }
        }
    }
}
