// The solver interface: what a solver stands for, what each call does to that, and when a call is refused.
#![tactic(auto)]

mod fault;
mod interface;
mod questions;

pub use fault::SolverFault;
pub use interface::Solver;
pub use questions::{all_named, is_named, price};
