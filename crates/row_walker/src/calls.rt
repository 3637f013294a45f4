// The calls of a row walker.
ghost use Rattle.solver.specs.Meaning.{New};
ghost use Rattle.row_walker.specs.Stands.{stands, bounded};

use crate::clause::Clause;
use crate::walk::first_row;
use crate::{FULL, RowWalker};
use inline_list::InlineList;
use solver::{Solver, SolverFault, all_named, price};

impl RowWalker {
    // A new row walker, as after a begin with no variables.
    pub fn new() -> RowWalker
        ensures { New (stands result) }
    {
        RowWalker {
            vars: 0,
            room: FULL,
            clauses: InlineList::none(Clause::default()),
            shown: None,
        }
    }
}

impl Solver for RowWalker {
    ghost meaning = { stands };

    ghost sound = { λ _. Unit {0} };

    ghost bounded = { bounded };

    fn capacity(&self) -> usize {
        24
    }

    fn width(&self) -> usize {
        16
    }

    fn full_room(&self) -> usize {
        FULL
    }

    fn begin(&mut self, vars: usize) -> Result<(), SolverFault> {
        if vars > self.capacity() {
            return Err(SolverFault::TooManyVariables);
        }
        self.vars = vars;
        self.clauses.clear();
        self.room = self.full_room();
        self.shown = None;
        Ok(())
    }

    fn add(&mut self, clause: &[i32]) -> Result<(), SolverFault> {
        if clause.len() > self.width() {
            return Err(SolverFault::TooLong);
        }
        if !all_named(self.vars, clause) {
            return Err(SolverFault::UnknownVariable);
        }
        let price = price(clause.len());
        if price > self.room {
            return Err(SolverFault::NoRoom);
        }
        self.keep(Clause::of(clause), price);
        Ok(())
    }

    fn solve(&mut self, assumed: &[i32]) -> Result<bool, SolverFault> {
        if !all_named(self.vars, assumed) {
            return Err(SolverFault::UnknownVariable);
        }
        let found = first_row(self.vars, self.clauses.as_slice(), assumed);
        Ok(self.show(found))
    }

    fn value(&self, variable: usize) -> Result<bool, SolverFault> {
        match self.shown {
            Some(row) if 0 < variable && variable <= self.vars => Ok(
                (row >> (variable - 1)) % 2 == 1,
            ),
            _ => Err(SolverFault::NoValue),
        }
    }
}
