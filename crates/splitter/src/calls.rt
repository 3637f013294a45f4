// The calls of a splitter.
ghost use Rattle.std.specs.Prelude.{◌≡◌};
ghost use Rattle.solver.specs.Meaning.{Begun, New};
ghost use Rattle.splitter.specs.Sizes.{full_over, sizes_over};
ghost use Rattle.splitter.specs.Stands.{over, bounded, Sound};

use crate::Splitter;
use crate::account::Account;
use crate::below::{begin_taken, solve_taken};
use crate::threes::add_in_threes;
use solver::{Solver, SolverFault, all_named, price};

// The full room over a solver.
fn full_over<S: Solver>(below: &S) -> usize
    ensures { result ≡ full_over (S.Solver.meaning below.now).sizes }
{
    below.full_room().min(below.capacity() / 2)
}

impl<S: Solver> Splitter<S> {
    // Lays a splitter over a solver, which it begins.
    pub fn over(mut below: S) -> Splitter<S>
        requires { S.Solver.sound below }
        ensures new { New (over (S.Solver.meaning result.below) result.vars result.account.room) }
        ensures sizes { (over (S.Solver.meaning result.below) result.vars result.account.room).sizes ≡ sizes_over (S.Solver.meaning below).sizes }
        ensures begun { Begun (S.Solver.meaning below) (full_over (S.Solver.meaning below).sizes) (S.Solver.meaning result.below) }
        ensures sound { S.Solver.sound result.below × Sound (S.Solver.meaning result.below) result.vars result.account.fresh result.account.room }
    {
        let full = full_over(&below);
        begin_taken(&mut below, full);
        Splitter {
            below,
            vars: 0,
            account: Account::of(full),
        }
    }
}

impl<S: Solver> Solver for Splitter<S> {
    ghost meaning = { λ s. over (S.Solver.meaning s.below) s.vars s.account.room };

    ghost sound = { λ s. S.Solver.sound s.below × Sound (S.Solver.meaning s.below) s.vars s.account.fresh s.account.room };

    ghost bounded = { λ s h. bounded (S.Solver.meaning s.below) s.vars s.account.fresh s.account.room (S.Solver.bounded s.below h.0) h.1 };

    fn capacity(&self) -> usize {
        self.below.capacity() - self.full_room()
    }

    fn width(&self) -> usize {
        16
    }

    fn full_room(&self) -> usize {
        full_over(&self.below)
    }

    fn begin(&mut self, vars: usize) -> Result<(), SolverFault> {
        if vars > self.capacity() {
            return Err(SolverFault::TooManyVariables);
        }
        let full = self.full_room();
        begin_taken(&mut self.below, vars + full);
        self.vars = vars;
        self.account = Account::of(full);
        Ok(())
    }

    fn add(&mut self, clause: &[i32]) -> Result<(), SolverFault> {
        if clause.len() > self.width() {
            return Err(SolverFault::TooLong);
        }
        if !all_named(self.vars, clause) {
            return Err(SolverFault::UnknownVariable);
        }
        let price = price(clause.len());
        if price > self.account.room {
            return Err(SolverFault::NoRoom);
        }
        let last = self.vars + self.account.fresh;
        add_in_threes(&mut self.below, clause, last);
        self.account.charge(clause.len(), price);
        Ok(())
    }

    fn solve(&mut self, assumed: &[i32]) -> Result<bool, SolverFault> {
        if !all_named(self.vars, assumed) {
            return Err(SolverFault::UnknownVariable);
        }
        Ok(solve_taken(&mut self.below, assumed))
    }

    fn value(&self, variable: usize) -> Result<bool, SolverFault> {
        if variable > self.vars {
            return Err(SolverFault::NoValue);
        }
        self.below.value(variable)
    }
}
