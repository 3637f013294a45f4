// The next set of a list, over any solver: the first set of at most so many gates that explains every test and contains no set given before.
#![tactic(auto)]

mod ask;
mod asked;
mod bars;
mod explanation;
mod fault;
mod fill;
mod literal;
mod lowest;
mod next;
mod readings;
mod scale;

pub use explanation::Explanation;
pub use fault::ListFault;
pub use next::next_set;
