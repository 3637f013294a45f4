// The tests that are held: recorded one after another, amended, and struck from the end.
ghost use Rattle.std.specs.Prelude.{◌≡◌, [], map, length, IfOk, OnOk};
ghost use Rattle.std.specs.List.{slice_get};
ghost use Rattle.std.specs.Option.{option_map};
ghost use Rattle.std.specs.Result.{result_err};
ghost use Rattle.circuit.specs.Held.{circuit_of};
ghost use Rattle.test_format.specs.Records.{recorded, Recorded};
ghost use Rattle.test_format.specs.Amending.{amended, Amended, struck, Struck};
ghost use Rattle.testlog.specs.Held.{test_of, tests_of};
ghost use Rattle.testlog.specs.Faults.{refusal_of, kept};

use crate::amend::reading;
use crate::fault::RecordFault;
use crate::table::TestTable;
use crate::test::Test;
use circuit::Circuit;
use std::alloc::{AllocError, Global};

impl TestTable {
    pub const MOST_TESTS: usize = 32;

    // No test, with room for all that may be held.
    pub fn new(heap: Global) -> Result<TestTable, AllocError>
        ensures { IfOk result (λ t. tests_of t ≡ []) }
    {
        let tests = Vec::with_capacity(heap, Self::MOST_TESTS)?;
        Ok(TestTable { tests })
    }

    // How many tests are held.
    pub fn len(&self) -> usize
        ensures { result ≡ length (tests_of self.now) }
    {
        self.tests.len()
    }

    // The tests that are held, in order.
    pub fn tests(&self) -> &[Test]
        ensures { map test_of result.now ≡ tests_of self.now }
    {
        self.tests.as_slice()
    }

    // The test of this number, from 0.
    pub fn get(&self, test: usize) -> Option<&Test>
        ensures { option_map (λ t. test_of t.now) result ≡ slice_get (tests_of self.now) test }
    {
        self.tests().get(test)
    }

    pub fn clear(&mut self)
        ensures { tests_of self.new ≡ [] }
    {
        self.tests.clear();
    }

    // Adds the test that a record gives, at the end; or tells why not, and leaves the tests as they were.
    pub fn record(&mut self, circuit: &Circuit, bytes: &[u8]) -> Result<(), RecordFault>
        ensures refused { option_map refusal_of (result_err result) ≡ result_err (recorded (circuit_of circuit.now) (tests_of self.old) bytes.now) }
        ensures after { tests_of self.new ≡ kept (tests_of self.old) (recorded (circuit_of circuit.now) (tests_of self.old) bytes.now) }
        ensures change { OnOk result (Recorded (circuit_of circuit.now) (tests_of self.old) (tests_of self.new) bytes.now) }
    {
        if self.tests.len() >= Self::MOST_TESTS {
            return Err(RecordFault::Full);
        }
        let test = Test::decode(circuit, bytes)?;
        self.tests.push_reserved(test);
        Ok(())
    }

    // Changes one output of one test to the value handed in, 2 for not measured; or tells why not, and leaves the tests as they were.
    pub fn amend(&mut self, test: usize, output: usize, value: u8) -> Result<(), RecordFault>
        ensures refused { option_map refusal_of (result_err result) ≡ result_err (amended (tests_of self.old) test output value) }
        ensures after { tests_of self.new ≡ kept (tests_of self.old) (amended (tests_of self.old) test output value) }
        ensures change { OnOk result (Amended (tests_of self.old) (tests_of self.new) test output value) }
    {
        let reading = reading(value).ok_or(RecordFault::Amendment)?;
        let Some(held) = self.tests.get_mut(test) else {
            return Err(RecordFault::Amendment);
        };
        held.amend(output, reading)?;
        Ok(())
    }

    // Drops the last test; or tells why not, and leaves the tests as they were.
    pub fn strike(&mut self) -> Result<(), RecordFault>
        ensures refused { option_map refusal_of (result_err result) ≡ result_err (struck (tests_of self.old)) }
        ensures after { tests_of self.new ≡ kept (tests_of self.old) (struck (tests_of self.old)) }
        ensures change { OnOk result (Struck (tests_of self.old) (tests_of self.new)) }
    {
        let held = self.tests.len();
        if held == 0 {
            return Err(RecordFault::NoTest);
        }
        self.tests.truncate(held - 1);
        Ok(())
    }
}
