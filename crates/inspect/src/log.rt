// The tests of a log, recorded one after another and described.
ghost use Rattle.std.specs.Prelude.{◌≡◌};
ghost use Rattle.std.specs.Option.{option_map};
ghost use Rattle.std.specs.Result.{result_err};
ghost use Rattle.circuit.specs.Held.{circuit_of};
ghost use Rattle.test_format.specs.Logs.{pieces};
ghost use Rattle.testlog.specs.Held.{tests_of};
ghost use Rattle.testlog.specs.Faults.{refusal_of};
ghost use Rattle.inspect.specs.Records.{first_refusal, held_after};

use circuit::Circuit;
use std::io;
use testlog::{RecordFault, Test, TestTable, cut};

// Records every piece of a log; the first that is refused ends it, with so many tests held as were taken before.
pub fn record_all(circuit: &Circuit, tests: &mut TestTable, log: &[u8]) -> Result<(), RecordFault>
    ensures refused { option_map refusal_of (result_err result)
        ≡ first_refusal (circuit_of circuit.now) (tests_of tests.old) (pieces (circuit_of circuit.now) log.now) }
    ensures after { tests_of tests.new
        ≡ held_after (circuit_of circuit.now) (tests_of tests.old) (pieces (circuit_of circuit.now) log.now) }
{
    // Kept: a loop, since where a record ends is only known once the log is cut there.
    let mut rest = log;
    while !rest.is_empty() {
        let (piece, after) = cut(circuit, rest);
        tests.record(circuit, piece)?;
        rest = after;
    }
    Ok(())
}

// A measured value as a digit, and a dash for an output that was not measured.
// Kept: the three cases line by line; `map_or` would have a branch for two of them in its closure.
fn digit(reading: Option<bool>) -> char {
    match reading {
        Some(true) => '1',
        Some(false) => '0',
        None => '-',
    }
}

fn describe_test(rt: &HostRuntime, number: usize, test: &Test) -> io::Result<()> {
    print!(rt; "test {number} inputs ")?;
    for bit in test.inputs() {
        print!(rt; "{}", digit(Some(*bit)))?;
    }
    print!(rt; " outputs ")?;
    for reading in test.outputs() {
        print!(rt; "{}", digit(*reading))?;
    }
    println!(rt; "")
}

pub fn describe_tests(rt: &HostRuntime, tests: &TestTable) -> io::Result<()> {
    println!(rt; "tests {}", tests.len())?;
    for (number, test) in tests.tests().iter().enumerate() {
        describe_test(rt, number, test)?;
    }
    Ok(())
}
