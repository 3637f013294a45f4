// Which tests the netlist misses as it stands, and at which outputs.
use circuit::{Circuit, Signal};
use failing::failing;
use netlist::Netlist;
use replay::settled;
use std::io;
use testlog::{Test, TestTable};

// A known bit as it was measured.
fn agrees(bit: u8, reading: Option<bool>) -> bool {
    reading.is_none_or(|measured| bit == u8::from(measured))
}

fn print_name(rt: &HostRuntime, netlist: &Netlist, signal: Signal) -> io::Result<()> {
    let name = match signal {
        Signal::Input(i) => netlist.input_name(i),
        Signal::Gate(g) => netlist.gate_name(g),
    };
    match name.map(|bytes| std::str::from_utf8(bytes)) {
        Some(Ok(text)) => print!(rt; " {text}"),
        _ => Ok(()),
    }
}

// The outputs at which a test measured something else than the netlist gives.
fn describe_misses(
    rt: &HostRuntime,
    netlist: &Netlist,
    circuit: &Circuit,
    number: usize,
    test: &Test,
) -> io::Result<()> {
    // Kept: `settled` writes into bytes that are lent to it, one for each output, where 2 is a value that is not known.
    let mut bits = [2u8; 64];
    let _ = settled(circuit, test.inputs(), &[], &mut bits);
    print!(rt; "missed {number} at")?;
    for (signal, (bit, reading)) in circuit
        .outputs()
        .iter()
        .zip(bits.iter().zip(test.outputs().iter()))
    {
        if !agrees(*bit, *reading) {
            print_name(rt, netlist, *signal)?;
        }
    }
    println!(rt; "")
}

pub fn describe_missed(
    rt: &HostRuntime,
    netlist: &Netlist,
    circuit: &Circuit,
    tests: &TestTable,
) -> io::Result<()> {
    let word = failing(circuit, tests);
    for (number, test) in tests.tests().iter().enumerate() {
        if number < 32 && (word >> (number as u32)) & 1 == 1 {
            describe_misses(rt, netlist, circuit, number, test)?;
        }
    }
    Ok(())
}
