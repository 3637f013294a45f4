// A circuit with a table of its tests, to try records on.
ghost use Rattle.std.specs.Prelude.{◌≡◌, [], IfOk, OnOk};
ghost use Rattle.circuit.specs.Held.{circuit_of};
ghost use Rattle.test_format.specs.Records.{recorded};
ghost use Rattle.test_format.specs.Amending.{amended, struck};
ghost use Rattle.testlog.specs.Held.{tests_of};
ghost use Rattle.testlog.specs.Faults.{kept};

use crate::shown::{print_bytes, print_test};
use circuit::{Circuit, Gate, Kind, Operands, Signal};
use refusal::Refusal;
use std::alloc::{AllocError, Global};
use std::io;
use testlog::{RecordFault, TestTable, cut};

// Kept: each method says that the circuit stays. A circuit that is lent could be changed for another just so, and as a parameter it would
// have to be handed to each.
#[derive(Drop)]
pub struct Bench {
    circuit: Circuit,
    table: TestTable,
}

// A circuit with so many inputs, and so many inverters of the first, each an output.
fn inverters(heap: Global, inputs: usize, outputs: usize) -> Result<Circuit, AllocError> {
    let mut circuit = Circuit::new(heap)?;
    for _ in 0..inputs {
        let _ = circuit.add_input();
    }
    let mut operands = Operands::none(Signal::Input(1));
    let _ = operands.push(Signal::Input(1));
    for gate in 0..outputs {
        let _ = circuit.add_gate(Gate {
            kind: Kind::Not,
            operands,
        });
        let _ = circuit.add_output(Signal::Gate(gate + 1));
    }
    Ok(circuit)
}

impl Bench {
    pub fn new(heap: Global, inputs: usize, outputs: usize) -> Result<Bench, AllocError>
        ensures { IfOk result (λ bench. tests_of bench.table ≡ []) }
    {
        let circuit = inverters(heap, inputs, outputs)?;
        let table = TestTable::new(heap)?;
        Ok(Bench { circuit, table })
    }

    // Prints a dot where the answer was yes, and the number of the refusal where not.
    fn print_answer(rt: &HostRuntime, answer: Result<(), RecordFault>) -> io::Result<()> {
        match answer {
            Ok(()) => print!(rt; " ."),
            Err(fault) => print!(rt; " {}", Refusal::from(fault).number),
        }
    }

    // Records bytes, and prints them with the test that they gave, or the refusal.
    pub fn record(&mut self, rt: &HostRuntime, bytes: &[u8]) -> io::Result<()>
        ensures circuit { self.new.circuit ≡ self.old.circuit }
        ensures after { OnOk result (tests_of self.new.table
            ≡ kept (tests_of self.old.table) (recorded (circuit_of self.old.circuit) (tests_of self.old.table) bytes.now)) }
    {
        print_bytes(rt, bytes)?;
        if let Err(fault) = self.table.record(&self.circuit, bytes) {
            let refusal = Refusal::from(fault);
            return println!(rt; "{refusal}");
        }
        match self.table.tests().last() {
            Some(test) => print_test(rt, test),
            None => Ok(()),
        }
    }

    // Records bytes, and prints only whether they were taken.
    pub fn answer(&mut self, rt: &HostRuntime, bytes: &[u8]) -> io::Result<()>
        ensures circuit { self.new.circuit ≡ self.old.circuit }
        ensures after { OnOk result (tests_of self.new.table
            ≡ kept (tests_of self.old.table) (recorded (circuit_of self.old.circuit) (tests_of self.old.table) bytes.now)) }
    {
        let answer = self.table.record(&self.circuit, bytes);
        Bench::print_answer(rt, answer)
    }

    // Tries each length, from no byte to two more than there are.
    pub fn try_lengths(&mut self, rt: &HostRuntime, record: &[u8]) -> io::Result<()>
        ensures { self.new.circuit ≡ self.old.circuit }
    {
        let mut bytes = Vec::new(rt.alloc());
        print!(rt; "lengths")?;
        for byte in record.iter().chain(&[0, 0, 0]) {
            self.table.clear();
            self.answer(rt, bytes.as_slice())?;
            bytes.push(*byte)?;
        }
        println!(rt)
    }

    fn turn(bytes: &mut Vec<u8>, i: usize, mask: u8) {
        if let Some(byte) = bytes.get_mut(i) {
            *byte ^= mask;
        }
    }

    // Tries the bytes with each bit of them turned, lowest first.
    pub fn try_bits(&mut self, rt: &HostRuntime, record: &[u8]) -> io::Result<()>
        ensures { self.new.circuit ≡ self.old.circuit }
    {
        let mut bytes = Vec::from_slice(rt.alloc(), record)?;
        print!(rt; "bits")?;
        // Kept: a byte is told by its place, since all the bytes are read while it is turned.
        for i in 0..record.len() {
            for mask in [1u8, 2, 4, 8, 16, 32, 64, 128] {
                self.table.clear();
                Bench::turn(&mut bytes, i, mask);
                self.answer(rt, bytes.as_slice())?;
                Bench::turn(&mut bytes, i, mask);
            }
        }
        println!(rt)
    }

    // Cuts a log, and records each piece.
    pub fn record_log(&mut self, rt: &HostRuntime, log: &[u8]) -> io::Result<()>
        ensures { self.new.circuit ≡ self.old.circuit }
    {
        // Kept: a loop, since where a record ends is only known once the log is cut there.
        let mut rest = log;
        while !rest.is_empty() {
            let (piece, behind) = cut(&self.circuit, rest);
            self.record(rt, piece)?;
            rest = behind;
        }
        Ok(())
    }

    // Amends one output, and prints the tests.
    pub fn amend(
        &mut self,
        rt: &HostRuntime,
        test: usize,
        output: usize,
        value: u8,
    ) -> io::Result<()>
        ensures circuit { self.new.circuit ≡ self.old.circuit }
        ensures after { OnOk result (tests_of self.new.table
            ≡ kept (tests_of self.old.table) (amended (tests_of self.old.table) test output value)) }
    {
        print!(rt; "amend {test} {output} {value}:")?;
        let answer = self.table.amend(test, output, value);
        Bench::print_answer(rt, answer)?;
        self.print_tests(rt)
    }

    // Strikes the last test, and prints those left.
    pub fn strike(&mut self, rt: &HostRuntime) -> io::Result<()>
        ensures circuit { self.new.circuit ≡ self.old.circuit }
        ensures after { OnOk result (tests_of self.new.table
            ≡ kept (tests_of self.old.table) (struck (tests_of self.old.table))) }
    {
        print!(rt; "strike:")?;
        let answer = self.table.strike();
        Bench::print_answer(rt, answer)?;
        self.print_tests(rt)
    }

    fn print_tests(&self, rt: &HostRuntime) -> io::Result<()> {
        let len = self.table.len();
        println!(rt; " {len} held")?;
        for test in self.table.tests() {
            print_test(rt, test)?;
        }
        Ok(())
    }
}
