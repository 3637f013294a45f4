// The clause writer: it walks a circuit, its tests and a bound once, and hands the formula's clauses, in order, to whatever takes them.
#![tactic(auto)]

mod bound;
mod clause;
mod counter;
mod formula;
mod function;
mod gates;
mod literal;
mod problem;
mod sink;
mod solver_sink;
mod tally;
mod tests;
mod variables;

pub use bound::Bound;
pub use formula::variables_before;
pub use literal::{Literal, Variable};
pub use problem::Problem;
pub use sink::ClauseSink;
pub use tally::Tally;
