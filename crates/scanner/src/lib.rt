// The words and signs of a netlist's lines, and the statements that they form.
#![tactic(auto)]

mod bytes;
mod name;
mod parser;
mod scanner;
mod statement;
mod token;

pub use name::{Name, same_name};
pub use parser::parse;
pub use statement::Statement;
pub use token::ScanFault;
