// Test records: decoding them, cutting a log into them, and the table of the tests that are held.
#![tactic(auto)]

mod amend;
mod bits;
mod decode;
mod fault;
mod hold;
mod log;
mod refused;
mod table;
mod test;
mod values;

pub use fault::RecordFault;
pub use log::cut;
pub use table::TestTable;
pub use test::Test;
