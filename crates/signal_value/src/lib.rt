// Kinds of signal values: the trait that an evaluator asks for, and the bit, the word of 32 lanes and the doubtful value.
#![tactic(auto)]

mod bit;
mod doubtful;
mod laws;
mod logic;
mod ternary;
mod word;

pub use doubtful::Doubtful;
pub use laws::images_follow_the_law;
pub use logic::Logic;
pub use word::Word;
