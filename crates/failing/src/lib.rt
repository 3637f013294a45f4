// The tests that a circuit misses if no gate misbehaves: all tests in one walk over the gates.
#![tactic(auto)]

mod agree;
mod columns;
mod laws;
mod missed;
mod pack;

pub use laws::missed_is_unexplained;
pub use missed::failing;
