// Whether a test's measured outputs have the values that the words hold in its lane.
ghost use Rattle.std.specs.Prelude.{◌≡◌, ◌<◌, ◌&&◌, length, ◌==◌};
ghost use Rattle.circuit.specs.Held.{circuit_of};
ghost use Rattle.diagnosis.specs.Explains.{value, agrees, agree};
ghost use Rattle.testlog.specs.Held.{test_of};
ghost use Rattle.failing.specs.Columns.{in_test};

use circuit::{Circuit, Signal};
use evaluate::value_of;
use signal_value::Word;
use testlog::Test;

fn is_as_measured(measured: Option<bool>, bit: bool) -> bool
    ensures { result ≡ agrees measured bit }
{
    measured.is_none_or(|value| value == bit)
}

// Kept: the words and the lane stand in three functions, since a struct of them would be made once and taken apart in each.
// Whether what was measured at an output, if anything, is what the words hold in the test's lane.
fn output_agrees(
    signal: Signal,
    measured: Option<bool>,
    inputs: &[Word],
    values: &[Word],
    t: usize,
) -> bool
    requires { t < 32 }
    ensures { result ≡ agrees measured (value (in_test t inputs.now) (in_test t values.now) signal) }
{
    is_as_measured(measured, value_of(signal, inputs, values).lane(t))
}

fn outputs_agree(
    outputs: &[Signal],
    measured: &[Option<bool>],
    inputs: &[Word],
    values: &[Word],
    t: usize,
) -> bool
    requires { t < 32 }
    ensures { result ≡ agree (in_test t inputs.now) (in_test t values.now) outputs.now measured.now }
{
    let mut pairs = outputs.iter().zip(measured.iter());
    outputs.len() == measured.len()
        && pairs.all(|(signal, reading)| output_agrees(*signal, *reading, inputs, values, t))
}

// Whether the test is one of the circuit, and its measured outputs agree with its lane.
pub(crate) fn is_shown(
    circuit: &Circuit,
    test: &Test,
    inputs: &[Word],
    values: &[Word],
    t: usize,
) -> bool
    requires { t < 32 }
    ensures { result ≡ (length (test_of test.now).inputs == (circuit_of circuit.now).inputs && agree (in_test t inputs.now) (in_test t values.now) (circuit_of circuit.now).outputs (test_of test.now).outputs) }
{
    test.inputs().len() == circuit.inputs()
        && outputs_agree(circuit.outputs(), test.outputs(), inputs, values, t)
}
