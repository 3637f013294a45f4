// Whether tests and sets fit a circuit.
ghost use Rattle.std.specs.Prelude.{◌≡◌, map};
ghost use Rattle.std.specs.List.{list_all};
ghost use Rattle.circuit.specs.Held.{circuit_of};
ghost use Rattle.testlog.specs.Held.{test_of, tests_of};
ghost use Rattle.gate_set.specs.Held.{sets_of};
ghost use Rattle.gate_set.specs.Ascending.{above};
ghost use Rattle.lister.specs.Asked.{fits_test, fitting};

use circuit::Circuit;
use cnf::Problem;
use gate_set::{GateSet, ascends};
use testlog::Test;

// Whether the test has a value for each input and a place for each output.
fn fits_test(circuit: &Circuit, test: &Test) -> bool
    ensures { result ≡ fits_test (circuit_of circuit.now) (test_of test.now) }
{
    test.inputs().len() == circuit.inputs() && test.outputs().len() == circuit.outputs().len()
}

fn fits_tests(circuit: &Circuit, tests: &[Test]) -> bool
    ensures { result ≡ list_all (fits_test (circuit_of circuit.now)) (map test_of tests.now) }
{
    tests.iter().all(|test| fits_test(circuit, test))
}

fn are_sets(gates: usize, sets: &[GateSet]) -> bool
    ensures { result ≡ list_all (above 0 gates) (sets_of sets.now) }
{
    sets.iter().all(|set| ascends(set.as_slice(), gates))
}

// Whether there is a gate, the tests are tests of the circuit, and the sets are sets of its gates.
pub(crate) fn is_fitting(problem: &Problem, given: &[GateSet]) -> bool
    ensures { result ≡ fitting (circuit_of problem.now.circuit.now) (tests_of problem.now.tests.now) (sets_of given.now) }
{
    let gates = problem.circuit.gates().len();
    gates > 0 && fits_tests(problem.circuit, problem.tests.tests()) && are_sets(gates, given)
}
