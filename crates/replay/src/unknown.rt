// What is settled at the outputs of a test while the gates of a set are unknown.
ghost use Rattle.std.specs.Prelude.{◌≡◌, ◌≤◌, map, length, if◌then◌else◌};
ghost use Rattle.std.specs.Result.{result_err};
ghost use Rattle.circuit.specs.Held.{circuit_of};
ghost use Rattle.inline_list.specs.Listed.{listed};
ghost use Rattle.signal_value.specs.Possible.{only};
ghost use Rattle.signal_value.specs.Kept.{known, byte_of};
ghost use Rattle.evaluation.specs.Evaluated.{standing};
ghost use Rattle.replay.specs.Asked.{admits, answer};
ghost use Rattle.replay.specs.Written.{written, settled};

use crate::asked::admit;
use crate::forcing::forced_unknown;
use circuit::{Circuit, Signal};
use evaluate::{evaluate, value_of};
use inline_list::InlineList;
use refusal::Refusal;
use signal_value::{Doubtful, Logic};

// The inputs, each of them known.
fn known_inputs(inputs: &[bool]) -> InlineList<Doubtful, 64>
    requires { length inputs.now ≤ 64 }
    ensures { map known (listed result) ≡ map only inputs.now }
{
    let mut known = InlineList::none(Doubtful::Unknown);
    for bit in inputs {
        let _ = known.push(Doubtful::constant(*bit));
    }
    known
}

// Writes what each signal is at the front of the buffer, a byte each.
// Kept: by index, since nothing is known of what a chain over `iter_mut` wrote.
fn write_signals(signals: &[Signal], inputs: &[Doubtful], values: &[Doubtful], buffer: &mut [u8])
    requires { length signals.now ≤ length buffer.old }
    ensures { buffer.new ≡ written (map (λ o. byte_of (standing (map known inputs.now) (map known values.now) o)) signals.now) buffer.old }
{
    for (i, signal) in signals.iter().enumerate() {
        buffer[i] = u8::from(value_of(*signal, inputs, values));
    }
}

// Writes what the evaluator finds at each output, a byte each: 0 or 1, or 2 for unknown.
pub fn settled(
    circuit: &Circuit,
    inputs: &[bool],
    set: &[usize],
    buffer: &mut [u8],
) -> Result<(), Refusal>
    ensures refused { result_err result ≡ answer (admits (circuit_of circuit.now) inputs.now set.now (length (circuit_of circuit.now).outputs) (length buffer.old)) }
    ensures after { buffer.new ≡ (if admits (circuit_of circuit.now) inputs.now set.now (length (circuit_of circuit.now).outputs) (length buffer.old) then written (settled (circuit_of circuit.now) inputs.now set.now) buffer.old else buffer.old) }
{
    let outputs = circuit.outputs();
    admit(circuit, inputs, set, outputs.len(), buffer.len())?;
    let applied = known_inputs(inputs);
    let applied = applied.as_slice();
    let forced = forced_unknown(set);
    let values = evaluate(circuit, applied, forced.as_slice());
    write_signals(outputs, applied, values.as_slice(), buffer);
    Ok(())
}
