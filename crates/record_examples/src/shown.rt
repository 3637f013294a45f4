// Tests and bytes, as they are printed.
use std::io;
use testlog::Test;

fn symbol(value: bool) -> char {
    if value { '1' } else { '0' }
}

// The input values, then the outputs, with `-` where nothing was measured.
pub fn print_test(rt: &HostRuntime, test: &Test) -> io::Result<()> {
    for value in test.inputs() {
        print!(rt; "{}", symbol(*value))?;
    }
    print!(rt; " ")?;
    for output in test.outputs() {
        match *output {
            Some(value) => print!(rt; "{}", symbol(value))?,
            None => print!(rt; "-")?,
        }
    }
    println!(rt)
}

pub fn print_bytes(rt: &HostRuntime, bytes: &[u8]) -> io::Result<()> {
    for byte in bytes {
        print!(rt; "{byte:02x}")?;
    }
    print!(rt; " ")
}
