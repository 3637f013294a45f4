// One evaluator for every kind of signal value.
#![tactic(auto)]

mod combine;
mod connective;
mod count;
mod forced;
mod operand;
mod walk;

pub use count::gate_count;
pub use forced::Forced;
pub use operand::value_of;
pub use walk::evaluate;
