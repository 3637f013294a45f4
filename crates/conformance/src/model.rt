// A truth table of up to 10 variables: the plainest solver.
ghost use Rattle.std.specs.Prelude.{◌≡◌, ◌↔◌, None, IsTrue, IfOk, OnOk, OnErr, IfSome, nat_le};
ghost use Rattle.std.specs.List.{list_all, list_any};
ghost use Rattle.solver.specs.Rows.{named, all_named};
ghost use Rattle.solver.specs.Refusals.{refusal, asked};
ghost use Rattle.conformance.specs.TruthTables.{row_of, true_in, sizes_of, add_asked, value_asked, may_show, IsFresh, AddsClause, IsSatisfiable, SameTable};

use solver::{Solver, SolverFault};

const ROWS: usize = 1024;

#[derive(Drop)]
pub struct Model {
    capacity: usize,
    width: usize,
    full: usize,
    vars: usize,
    room: usize,
    allowed: [bool; ROWS],
    shown: Option<usize>,
}

fn literal_true(row: usize, literal: i32) -> bool
    ensures { result ≡ true_in row literal }
{
    let variable = literal.unsigned_abs();
    if variable == 0 || variable > 10 {
        return false;
    }
    let value = (row >> (variable - 1)) % 2 == 1;
    if literal > 0 { value } else { !value }
}

fn some_true(row: usize, literals: &[i32]) -> bool
    ensures { result ≡ list_any (true_in row) literals.now }
{
    literals.iter().any(|literal| literal_true(row, *literal))
}

fn all_true(row: usize, literals: &[i32]) -> bool
    ensures { result ≡ list_all (true_in row) literals.now }
{
    literals.iter().all(|literal| literal_true(row, *literal))
}

// Kept: this and the next are not those of the crate solver, so that a fault there does not hide from the truth table.
fn is_known(vars: usize, literal: i32) -> bool
    ensures { result ≡ named vars literal }
{
    let variable = literal.unsigned_abs() as usize;
    1 <= variable && variable <= vars
}

fn all_known(vars: usize, literals: &[i32]) -> bool
    ensures { result ≡ all_named vars literals.now }
{
    literals.iter().all(|literal| is_known(vars, *literal))
}

impl Model {
    // The truth table of a solver's sizes.
    pub fn of<S: Solver>(solver: &S) -> Model
        ensures sizes { sizes_of result ≡ (S.Solver.meaning solver.now).sizes }
        ensures fresh { IsFresh 0 result }
    {
        Model::new(solver.capacity(), solver.width(), solver.full_room())
    }

    pub fn new(capacity: usize, width: usize, full: usize) -> Model
        ensures sizes { sizes_of result ≡ record { capacity = capacity; width = width; full = full } }
        ensures fresh { IsFresh 0 result }
    {
        Model {
            capacity,
            width,
            full,
            vars: 0,
            room: full,
            allowed: [true; ROWS],
            shown: None,
        }
    }

    pub fn begin(&mut self, vars: usize) -> Result<(), SolverFault>
        ensures refused { refusal result ≡ asked 20 (nat_le vars self.old.capacity) None }
        ensures fresh { OnOk result (IsFresh vars self.new) }
        ensures sizes { sizes_of self.new ≡ sizes_of self.old }
        ensures untouched { OnErr result (self.new ≡ self.old) }
    {
        if vars > self.capacity {
            return Err(SolverFault::TooManyVariables);
        }
        self.vars = vars;
        self.room = self.full;
        self.allowed = [true; ROWS];
        self.shown = None;
        Ok(())
    }

    pub fn add(&mut self, clause: &[i32]) -> Result<(), SolverFault>
        ensures refused { refusal result ≡ add_asked self.old clause.now }
        ensures added { OnOk result (AddsClause self.old self.new clause.now) }
        ensures sizes { sizes_of self.new ≡ sizes_of self.old }
        ensures untouched { OnErr result (self.new ≡ self.old) }
    {
        if clause.len() > self.width {
            return Err(SolverFault::TooLong);
        }
        if !all_known(self.vars, clause) {
            return Err(SolverFault::UnknownVariable);
        }
        let price = if clause.len() < 4 {
            1
        } else {
            clause.len() - 2
        };
        if price > self.room {
            return Err(SolverFault::NoRoom);
        }
        self.room -= price;
        self.shown = None;
        for (row, allowed) in self.allowed.iter_mut().enumerate() {
            *allowed = *allowed && some_true(row, clause);
        }
        Ok(())
    }

    // Whether some row is wanted; which one a solver shows is open.
    pub fn solve(&self, assumed: &[i32]) -> Result<bool, SolverFault>
        ensures refused { refusal result ≡ asked 21 (all_named self.now.vars assumed.now) None }
        ensures answer { IfOk result (λ yes. IsTrue yes ↔ IsSatisfiable self.now assumed.now) }
    {
        if !all_known(self.vars, assumed) {
            return Err(SolverFault::UnknownVariable);
        }
        let found = self
            .allowed
            .iter()
            .enumerate()
            .any(|(row, allowed)| *allowed && all_true(row, assumed));
        Ok(found)
    }

    // Takes over the row that a solver shows, if any, and says whether it may show that.
    pub fn show(&mut self, row: Option<usize>, assumed: &[i32]) -> bool
        ensures value { result ≡ may_show self.old row assumed.now }
        ensures shown { self.new.shown ≡ row }
        ensures same { SameTable self.old self.new }
    {
        self.shown = row;
        match row {
            None => true,
            Some(row) => self.allowed.get(row).copied().unwrap_or(false) && all_true(row, assumed),
        }
    }

    pub fn value(&self, variable: usize) -> Result<bool, SolverFault>
        ensures refused { refusal result ≡ value_asked self.now variable }
        ensures value { IfOk result (λ b. IfSome self.now.shown (λ n. b ≡ row_of n variable)) }
    {
        match self.shown {
            Some(row) if 0 < variable && variable <= self.vars && variable <= 10 => Ok(
                (row >> (variable - 1)) % 2 == 1,
            ),
            _ => Err(SolverFault::NoValue),
        }
    }

    pub fn full_room(&self) -> usize
        ensures { result ≡ self.now.full }
    {
        self.full
    }

    pub fn vars(&self) -> usize
        ensures { result ≡ self.now.vars }
    {
        self.vars
    }
}
