// Questions about one test of a circuit: its gates' bits with values forced on a set, and what is settled while a set is unknown.
#![tactic(auto)]

mod asked;
mod forcing;
mod laws;
mod unknown;
mod values;

pub use laws::{sets_are_admitted, settled_bits_hold};
pub use unknown::settled;
pub use values::replay;
