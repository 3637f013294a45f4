// Writes every line of the formula of a full-size case: 64 inputs, 256 gates of eight operands, 32 tests and the bound 6.
// Tells how many lines and bytes they are, and on the error stream what a line costs early and late in the text.
#![tactic(auto)]

ghost use Rattle.std.specs.Prelude.{◌≤◌};

use circuit::{Circuit, Gate, Kind, Operands, Signal};
use cnf::{Bound, Problem};
use dimacs::formula_line;
use std::alloc::{AllocError, Global};
use std::io;
use std::time::Instant;
use testlog::TestTable;

fn wide_gate() -> Gate {
    let mut operands = Operands::none(Signal::Input(1));
    for i in 1..9 {
        let _ = operands.push(Signal::Input(i));
    }
    Gate {
        kind: Kind::Nand,
        operands,
    }
}

fn full_circuit(heap: Global) -> Result<Circuit, AllocError> {
    let mut circuit = Circuit::new(heap)?;
    for _ in 0..Circuit::MOST_INPUTS {
        let _ = circuit.add_input();
    }
    for _ in 0..Circuit::MOST_GATES {
        let _ = circuit.add_gate(wide_gate());
    }
    for g in 1..33 {
        let _ = circuit.add_output(Signal::Gate(g));
    }
    Ok(circuit)
}

fn full_tests(heap: Global, circuit: &Circuit) -> Result<TestTable, AllocError> {
    let mut tests = TestTable::new(heap)?;
    let record = [
        255, 255, 255, 255, 165, 165, 165, 165, 165, 165, 165, 165, 0, 0, 0, 0,
    ];
    for _ in 0..32 {
        let _ = tests.record(circuit, &record);
    }
    Ok(tests)
}

// How many lines there are from one number up to another, and their bytes.
fn write_lines(problem: &Problem, from: usize, to: usize) -> (usize, usize) {
    let mut lines: usize = 0;
    let mut bytes: usize = 0;
    for line in from..to {
        let mut buffer = [0; 128];
        if let Ok(length) = formula_line(problem, line, &mut buffer) {
            lines = lines.saturating_add(1);
            bytes = bytes.saturating_add(length);
        }
    }
    (lines, bytes)
}

// The time for the thousand lines from this number on.
fn time_lines(rt: &HostRuntime, problem: &Problem, from: usize) -> io::Result<()>
    requires { from ≤ 1000000 }
{
    let start = Instant::now(rt)?;
    write_lines(problem, from, from + 1000);
    let micros = start.elapsed(rt)?.as_micros();
    eprintln!(rt; "1000 lines from line {from}: {micros} microseconds")
}

fn main(rt: HostRuntime) -> io::Result<()> {
    let circuit = full_circuit(rt.alloc())?;
    let tests = full_tests(rt.alloc(), &circuit)?;
    let Some(bound) = Bound::new(6) else {
        return Ok(());
    };
    let problem = Problem {
        circuit: &circuit,
        tests: &tests,
        bound,
    };
    for from in [1_000, 10_000, 50_000, 100_000] {
        time_lines(&rt, &problem, from)?;
    }
    let (lines, bytes) = write_lines(&problem, 1, 120_000);
    println!(rt; "lines {lines}")?;
    println!(rt; "bytes {bytes}")
}
