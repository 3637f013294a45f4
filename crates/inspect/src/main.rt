// Describes the netlist in `case.net` and the tests in `case.tst`, or says what is wrong with them and where.
#![tactic(auto)]

mod describe;
mod log;
mod missed;

use describe::describe;
use log::{describe_tests, record_all};
use missed::describe_missed;
use netlist::{Netlist, ReadFault};
use refusal::Refusal;
use std::io::ErrorKind;
use std::{fs, io};
use testlog::{RecordFault, TestTable};

// The bytes of a file; those of a missing one are none.
fn read_or_none(rt: &HostRuntime, path: &str) -> io::Result<Vec<u8>> {
    match fs::read(rt, path) {
        Err(e) if e.kind() == ErrorKind::NotFound => Ok(Vec::new(rt.alloc())),
        read => read,
    }
}

fn refuse_netlist(rt: &HostRuntime, fault: ReadFault) -> io::Result<()> {
    println!(rt; "{}", Refusal::from(fault))?;
    println!(rt; "{fault}")
}

fn refuse_record(rt: &HostRuntime, number: usize, fault: RecordFault) -> io::Result<()> {
    println!(rt; "{}", fault.refusal())?;
    println!(rt; "record {number}: {fault}")
}

fn main(rt: HostRuntime) -> io::Result<()> {
    let text = read_or_none(&rt, "case.net")?;
    let log = read_or_none(&rt, "case.tst")?;
    let mut netlist = Netlist::new(rt.alloc())?;
    let mut tests = TestTable::new(rt.alloc())?;
    if let Err(fault) = netlist.load(text.as_slice()) {
        return refuse_netlist(&rt, fault);
    }
    let Some(circuit) = netlist.circuit() else {
        return Ok(());
    };
    describe(&rt, circuit)?;
    match record_all(circuit, &mut tests, log.as_slice()) {
        Ok(()) => {
            describe_tests(&rt, &tests)?;
            describe_missed(&rt, &netlist, circuit, &tests)
        }
        Err(fault) => refuse_record(&rt, tests.len(), fault),
    }
}
