// Lists of at most so many values, kept in place: none asks for memory, and each is copied as a whole.
#![tactic(auto)]

mod list;

pub use list::{Full, InlineList};
