// Sets of gates, by their numbers in ascending order.
#![tactic(auto)]

mod ascending;
mod laws;

pub use ascending::ascends;
use inline_list::InlineList;
pub use laws::ascending_numbers_are_sets;

// A set of gates, at most six, by their numbers.
pub type GateSet = InlineList<usize, 6>;
