// What every solver asks of a call before it takes it.
ghost use Rattle.std.specs.Prelude.{◌≡◌};
ghost use Rattle.solver.specs.Rows.{named, all_named, price as price_of};
ghost use Rattle.solver.specs.Refusals.{number as number_of};

use crate::SolverFault;

impl SolverFault {
    // The number by which users know a refusal.
    pub fn number(self) -> u8
        ensures { result ≡ number_of self }
    {
        self as u8
    }
}

// Whether a literal's variable is in 1 to vars.
pub fn is_named(vars: usize, literal: i32) -> bool
    ensures { result ≡ named vars literal }
{
    let variable = literal.unsigned_abs() as usize;
    0 < variable && variable <= vars
}

// Whether each literal's variable is in 1 to vars.
pub fn all_named(vars: usize, literals: &[i32]) -> bool
    ensures { result ≡ all_named vars literals.now }
{
    literals.iter().all(|literal| is_named(vars, *literal))
}

// The price of a clause of so many literals.
pub fn price(length: usize) -> usize
    ensures { result ≡ price_of length }
{
    if length <= 3 { 1 } else { length - 2 }
}
