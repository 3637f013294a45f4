// Circuits: kinds of gates, signals, gates with their operands, and circuits that are sound by their type.
#![tactic(auto)]

mod build;
mod circuit;
mod gate;
mod kind;
mod laws;

pub use circuit::{Circuit, CircuitFault};
pub use gate::{Gate, Operands, Signal};
pub use kind::Kind;
pub use laws::kinds_compute_as_named;
