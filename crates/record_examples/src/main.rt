// Tries records, logs and amendments, good and bad, and prints what becomes of each.
#![tactic(auto)]

mod bench;
mod hex;
mod shown;

use bench::Bench;
use hex::bytes_of;
use std::{fs, io};

// Tries a record at every length and with every bit turned. A line has the numbers of inputs and outputs, a byte each, and the record.
fn try_line(rt: &HostRuntime, line: &str) -> io::Result<()> {
    let bytes = bytes_of(rt.alloc(), line)?;
    let [inputs, outputs, record @ ..] = bytes.as_slice() else {
        return Ok(());
    };
    println!(rt; "{inputs} inputs, {outputs} outputs")?;
    let mut bench = Bench::new(rt.alloc(), *inputs as usize, *outputs as usize)?;
    bench.record(rt, record)?;
    bench.try_lengths(rt, record)?;
    bench.try_bits(rt, record)
}

// Records a log, then amends tests of it, and strikes more than there are.
fn try_log(rt: &HostRuntime) -> io::Result<()> {
    let log = bytes_of(rt.alloc(), "03030203070001030000030303")?;
    let mut bench = Bench::new(rt.alloc(), 3, 2)?;
    println!(rt; "a log")?;
    bench.record_log(rt, log.as_slice())?;
    for (test, output, value) in [
        (0, 1, 1),
        (0, 2, 2),
        (3, 2, 0),
        (4, 1, 0),
        (0, 0, 0),
        (0, 3, 0),
        (0, 1, 3),
    ] {
        bench.amend(rt, test, output, value)?;
    }
    for _ in 0..5 {
        bench.strike(rt)?;
    }
    Ok(())
}

// Records more tests than may be held, then bytes that would be refused for their length.
fn try_many(rt: &HostRuntime) -> io::Result<()> {
    let mut bench = Bench::new(rt.alloc(), 3, 2)?;
    println!(rt; "33 records")?;
    for _ in 0..33 {
        bench.answer(rt, &[0, 3])?;
    }
    println!(rt)?;
    bench.answer(rt, &[])?;
    println!(rt)
}

fn main(rt: HostRuntime) -> io::Result<()> {
    let table = fs::read_to_string(&rt, "records.txt")?;
    for line in table.as_str().lines() {
        try_line(&rt, line)?;
    }
    try_log(&rt)?;
    try_many(&rt)
}
