// Netlists, read from their text into tables that have room for the largest.
#![tactic(auto)]

mod admit;
mod fault;
mod lines;
mod load;
mod lookup;
mod names;
mod netlist;
mod refused;
mod tables;
mod text;
mod whole;

pub use fault::{LineFault, ReadFault};
pub use netlist::Netlist;
