// The calls of a ternary search.
ghost use Rattle.ternary.specs.Stands.{stands, Sound, bounded};

use crate::TernarySearch;
use crate::storage::store_clause;
use solver::{Solver, SolverFault, all_named};

impl<'a> Solver for TernarySearch<'a> {
    ghost meaning = { stands };

    ghost sound = { Sound };

    ghost bounded = { bounded };

    fn capacity(&self) -> usize {
        self.limit
    }

    fn width(&self) -> usize {
        3
    }

    fn full_room(&self) -> usize {
        self.capacity()
    }

    fn begin(&mut self, vars: usize) -> Result<(), SolverFault> {
        if vars > self.capacity() {
            return Err(SolverFault::TooManyVariables);
        }
        self.vars = vars;
        self.count = 0;
        self.room = self.full_room();
        self.found = false;
        Ok(())
    }

    fn add(&mut self, clause: &[i32]) -> Result<(), SolverFault> {
        if clause.len() > self.width() {
            return Err(SolverFault::TooLong);
        }
        if !all_named(self.vars, clause) {
            return Err(SolverFault::UnknownVariable);
        }
        if self.room == 0 {
            return Err(SolverFault::NoRoom);
        }
        let count = self.count;
        store_clause(self.clauses, count, clause);
        self.count = count + 1;
        self.room -= 1;
        self.found = false;
        Ok(())
    }

    fn solve(&mut self, assumed: &[i32]) -> Result<bool, SolverFault> {
        if !all_named(self.vars, assumed) {
            return Err(SolverFault::UnknownVariable);
        }
        let found = self.search(assumed);
        self.found = found;
        Ok(found)
    }

    fn value(&self, variable: usize) -> Result<bool, SolverFault> {
        if !self.found || variable == 0 || variable > self.vars {
            return Err(SolverFault::NoValue);
        }
        Ok(self.values[variable - 1] > 0)
    }
}
