// The formula's text in DIMACS form, line by line, without writing the lines before.
#![tactic(auto)]

mod line;
mod pick;
mod text;

pub use line::formula_line;
