// Records decoded into tests.
ghost use Rattle.std.specs.Prelude.{◌≡◌, ◌≤◌};
ghost use Rattle.circuit.specs.Held.{circuit_of};
ghost use Rattle.test_format.specs.Records.{record_length, decoded};
ghost use Rattle.testlog.specs.Held.{test_of};
ghost use Rattle.testlog.specs.Faults.{read};

use crate::bits::{bytes_for, is_clear, marked};
use crate::fault::RecordFault;
use crate::test::Test;
use crate::values::{applied_inputs, measured_outputs};
use circuit::Circuit;

// How many bytes a record takes, by the map at its front.
pub(crate) fn record_len(inputs: usize, outputs: usize, bytes: &[u8]) -> usize
    requires inputs_within { inputs ≤ 64 }
    requires outputs_within { outputs ≤ 64 }
    ensures { result ≡ record_length inputs outputs bytes.now }
{
    bytes_for(outputs) + bytes_for(inputs) + bytes_for(marked(bytes, outputs))
}

impl Test {
    // The test that a record gives, or why it is none of this circuit.
    pub fn decode(circuit: &Circuit, bytes: &[u8]) -> Result<Test, RecordFault>
        ensures { read result ≡ decoded (circuit_of circuit.now) bytes.now }
    {
        let inputs = circuit.inputs();
        let outputs = circuit.outputs().len();
        if bytes.len() != record_len(inputs, outputs, bytes) {
            return Err(RecordFault::Length);
        }
        let (map, rest) = bytes.split_at(bytes_for(outputs));
        let (applied, values) = rest.split_at(bytes_for(inputs));
        if !is_clear(map, outputs)
            || !is_clear(applied, inputs)
            || !is_clear(values, marked(bytes, outputs))
        {
            return Err(RecordFault::UnusedBits);
        }
        Ok(Test {
            inputs: applied_inputs(applied, inputs),
            outputs: measured_outputs(bytes, values, outputs),
        })
    }
}
