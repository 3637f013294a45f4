// The counter's clauses: at most so many gates are marked.
ghost use Rattle.std.specs.Prelude.{◌≤◌};

use crate::bound::Bound;
use crate::clause::take_clause;
use crate::literal::{Literal, Variable};
use crate::sink::ClauseSink;

// The counter of so many gates, up to the bound.
#[derive(Clone, Copy)]
pub(crate) struct Counter {
    pub gates: usize,
    pub bound: Bound,
    ghost few: { gates ≤ 256 },
}

impl Counter {
    ghost use Rattle.std.specs.Prelude.{◌≡◌, suc, ◌+◌, ◌<◌, ◌≤◌, length};
    ghost use Rattle.cnf_theory.specs.Literals.{integers};
    ghost use Rattle.cnf_theory.specs.Variables.{count_variable};
    ghost use Rattle.cnf_theory.specs.Counter.{carry, step, count_at, counter, limit};

    // The count k at the gate after `before` others.
    // Kept: the place of a count stands in the clauses of three functions, since a type of its own would only be built and taken apart in each.
    fn variable(self, before: usize, k: usize) -> Variable
        requires { (before < self.gates) × (1 ≤ k) × (k ≤ self.bound.value + 1) }
        ensures { result.number ≡ count_variable self.gates self.bound.value (suc before) k }
    {
        Variable {
            number: self.gates + (before * (self.bound.value() + 1) + k),
        }
    }

    // A count that is reached at the gate before stays reached.
    fn write_carry<K: ClauseSink>(self, sink: &mut K, before: usize, k: usize)
        requires ready { K.ClauseSink.ready sink.old }
        requires there { (before < self.gates) × (1 ≤ k) × (k ≤ self.bound.value + 1) }
        ensures ready { K.ClauseSink.ready sink.new }
        ensures took { K.ClauseSink.took sink.old (integers (carry self.gates self.bound.value (suc before) k)) sink.new }
    {
        if before > 0 {
            let last = Literal::Negative(self.variable(before - 1, k));
            let here = Literal::Positive(self.variable(before, k));
            take_clause(sink, [last, here]);
        }
    }

    // A mark adds one to the count.
    fn write_step<K: ClauseSink>(self, sink: &mut K, before: usize, k: usize)
        requires ready { K.ClauseSink.ready sink.old }
        requires there { (before < self.gates) × (1 ≤ k) × (k ≤ self.bound.value + 1) }
        ensures ready { K.ClauseSink.ready sink.new }
        ensures took { K.ClauseSink.took sink.old (integers (step self.gates self.bound.value (suc before) k)) sink.new }
    {
        let mark = Literal::Negative(Variable { number: before + 1 });
        let here = Literal::Positive(self.variable(before, k));
        if k == 1 {
            take_clause(sink, [mark, here]);
        } else if before > 0 {
            let last = Literal::Negative(self.variable(before - 1, k - 1));
            take_clause(sink, [mark, last, here]);
        }
    }

    // How many clauses the counts of a gate have: one at the first gate, and two for each count at every other.
    fn clause_count_at(self, before: usize) -> usize
        ensures { length (count_at self.gates self.bound.value (suc before)) ≡ result }
    {
        if before == 0 {
            1
        } else {
            (self.bound.value() + 1) * 2
        }
    }

    // The counts of the gate after `before` others, unless the sink passes them.
    fn write_count_at<K: ClauseSink>(self, sink: &mut K, before: usize)
        requires ready { K.ClauseSink.ready sink.old }
        requires there { before < self.gates }
        ensures ready { K.ClauseSink.ready sink.new }
        ensures took { K.ClauseSink.took sink.old (integers (count_at self.gates self.bound.value (suc before))) sink.new }
    {
        if sink.pass(self.clause_count_at(before)) {
            return;
        }
        for j in 0..self.bound.value() + 1 {
            self.write_carry(sink, before, j + 1);
            self.write_step(sink, before, j + 1);
        }
    }

    // How many clauses the counter has.
    fn clause_count(self) -> usize
        ensures { length (counter self.gates self.bound.value) ≡ result }
    {
        if self.gates == 0 {
            return 0;
        }
        1 + (self.gates - 1) * ((self.bound.value() + 1) * 2)
    }

    // The counts of all gates, unless the sink passes them.
    pub(crate) fn write<K: ClauseSink>(self, sink: &mut K)
        requires ready { K.ClauseSink.ready sink.old }
        ensures ready { K.ClauseSink.ready sink.new }
        ensures took { K.ClauseSink.took sink.old (integers (counter self.gates self.bound.value)) sink.new }
    {
        if sink.pass(self.clause_count()) {
            return;
        }
        for before in 0..self.gates {
            self.write_count_at(sink, before);
        }
    }

    // The limit of the count, where there is a gate.
    pub(crate) fn write_limit<K: ClauseSink>(self, sink: &mut K)
        requires ready { K.ClauseSink.ready sink.old }
        ensures ready { K.ClauseSink.ready sink.new }
        ensures took { K.ClauseSink.took sink.old (integers (limit self.gates self.bound.value self.bound.value)) sink.new }
    {
        if self.gates > 0 {
            let last = self.variable(self.gates - 1, self.bound.value() + 1);
            take_clause(sink, [Literal::Negative(last)]);
        }
    }
}
