// The bits of a test's gates, with values forced on a set.
ghost use Rattle.std.specs.Prelude.{◌≡◌, ◌≤◌, map, length, if◌then◌else◌};
ghost use Rattle.std.specs.Result.{result_err};
ghost use Rattle.circuit.specs.Held.{circuit_of};
ghost use Rattle.replay.specs.Asked.{admits, answer};
ghost use Rattle.replay.specs.Written.{bit_byte, written, replayed};

use crate::asked::admit;
use crate::forcing::forced_bits;
use circuit::Circuit;
use evaluate::{evaluate, gate_count};
use refusal::Refusal;

// Writes the bits at the front of the buffer, a byte each.
// Kept: by index, since nothing is known of what a chain over `iter_mut` wrote.
fn write_bits(bits: &[bool], buffer: &mut [u8])
    requires { length bits.now ≤ length buffer.old }
    ensures { buffer.new ≡ written (map bit_byte bits.now) buffer.old }
{
    for (i, bit) in bits.iter().enumerate() {
        buffer[i] = u8::from(*bit);
    }
}

// Writes the bit of each gate, a byte each, for these inputs and with the byte's bits forced on the set: bit i, counted from 0, on the set's gate i.
pub fn replay(
    circuit: &Circuit,
    inputs: &[bool],
    set: &[usize],
    byte: u8,
    buffer: &mut [u8],
) -> Result<(), Refusal>
    ensures refused { result_err result ≡ answer (admits (circuit_of circuit.now) inputs.now set.now (length (circuit_of circuit.now).gates) (length buffer.old)) }
    ensures after { buffer.new ≡ (if admits (circuit_of circuit.now) inputs.now set.now (length (circuit_of circuit.now).gates) (length buffer.old) then written (replayed (circuit_of circuit.now) inputs.now set.now byte) buffer.old else buffer.old) }
{
    admit(circuit, inputs, set, gate_count(circuit), buffer.len())?;
    let forced = forced_bits(set, byte);
    let values = evaluate(circuit, inputs, forced.as_slice());
    write_bits(values.as_slice(), buffer);
    Ok(())
}
