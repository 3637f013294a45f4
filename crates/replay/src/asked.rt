// What is asked before a call is answered.
ghost use Rattle.std.specs.Prelude.{◌≡◌};
ghost use Rattle.std.specs.Result.{result_err};
ghost use Rattle.circuit.specs.Held.{circuit_of};
ghost use Rattle.replay.specs.Asked.{is_set, admits, answer};

use circuit::Circuit;
use evaluate::gate_count;
use gate_set::ascends;
use refusal::Refusal;

// The most gates of a set.
const SET: usize = 8;

// The number of the question.
const QUESTION: usize = 19;

// Whether the numbers are a set of at most 8 gates of a circuit with so many.
fn is_set(set: &[usize], gates: usize) -> bool
    ensures { result ≡ is_set gates set.now }
{
    set.len() <= SET && ascends(set, gates)
}

// Kept: circuit, inputs and set stand in four functions, since the two public ones take them apart, and a struct would only be made for `admit`.
// Whether a test has these inputs, the set is one of the circuit's gates, and the bytes that are wanted have room.
fn is_admitted(
    circuit: &Circuit,
    inputs: &[bool],
    set: &[usize],
    wanted: usize,
    room: usize,
) -> bool
    ensures { result ≡ admits (circuit_of circuit.now) inputs.now set.now wanted room }
{
    inputs.len() == circuit.inputs() && is_set(set, gate_count(circuit)) && wanted <= room
}

// Refuses what is not admitted.
pub(crate) fn admit(
    circuit: &Circuit,
    inputs: &[bool],
    set: &[usize],
    wanted: usize,
    room: usize,
) -> Result<(), Refusal>
    ensures { result_err result ≡ answer (admits (circuit_of circuit.now) inputs.now set.now wanted room) }
{
    if is_admitted(circuit, inputs, set, wanted, room) {
        Ok(())
    } else {
        Err(Refusal::numbered(QUESTION))
    }
}
