// The evaluator: the values of a circuit's gates, in file order, for any kind of signal value.
ghost use Rattle.std.specs.Prelude.{◌≡◌, ℕ, ◌<◌, length};
ghost use Rattle.circuit.specs.Circuits.{gate_of};
ghost use Rattle.circuit.specs.Held.{circuit_of};
ghost use Rattle.inline_list.specs.Listed.{listed, places_of};
ghost use Rattle.evaluation.specs.Evaluated.{computed_stands, gate_stands, evaluated};
ghost use Rattle.evaluate.specs.Forced.{forced_at, in_lane, lane_forcing};

use crate::combine::is_inverting;
use crate::connective::Connective;
use crate::forced::Forced;
use crate::operand::value_of;
use circuit::{Circuit, Gate};
use inline_list::InlineList;
use signal_value::Logic;

fn forced_at<L: Copy>(forced: &[Forced<L>], number: usize) -> Option<L>
    ensures { result ≡ forced_at forced.now number }
{
    forced
        .iter()
        .find(|each| number == each.gate)
        .map(|each| each.value)
}

// What the gate's function gives for its operands' values.
fn compute<L: Logic>(gate: &Gate, inputs: &[L], values: &[L]) -> L
    ensures { (i : ℕ) → i < L.Logic.LANES → L.Logic.stands result i ≡ computed_stands (in_lane L.Logic.stands i inputs.now) (in_lane L.Logic.stands i values.now) (gate_of gate.now) }
{
    let connective = Connective::of(gate.kind);
    let mut combined = L::constant(connective.neutral());
    let operands = gate.operands.as_slice();
    for signal in operands {
        combined = connective.join(combined, value_of(*signal, inputs, values));
    }
    if is_inverting(gate.kind) {
        combined.not()
    } else {
        combined
    }
}

// The value of the gate with a number, given those of the gates before it.
fn gate_value<L: Logic>(
    gate: &Gate,
    number: usize,
    inputs: &[L],
    before: &[L],
    forced: &[Forced<L>],
) -> L
    ensures { (i : ℕ) → i < L.Logic.LANES → L.Logic.stands result i ≡ gate_stands (lane_forcing L.Logic.stands i forced.now) (in_lane L.Logic.stands i inputs.now) number (in_lane L.Logic.stands i before.now) (gate_of gate.now) }
{
    match forced_at(forced, number) {
        Some(value) => value,
        None => compute(gate, inputs, before),
    }
}

// The values of the gates, from the first; a gate with a forced value has that one.
// Kept: an array by index, since with a list that grows a test took 58 nanoseconds with the word in place of 44.
pub fn evaluate<L: Logic>(
    circuit: &Circuit,
    inputs: &[L],
    forced: &[Forced<L>],
) -> InlineList<L, 256>
    ensures table { length (places_of result) ≡ 256 }
    ensures len { length (listed result) ≡ length (circuit_of circuit.now).gates }
    ensures lanes { (i : ℕ) → i < L.Logic.LANES → in_lane L.Logic.stands i (listed result) ≡ evaluated (circuit_of circuit.now) (lane_forcing L.Logic.stands i forced.now) (in_lane L.Logic.stands i inputs.now) }
{
    let mut values = [L::constant(false); Circuit::MOST_GATES];
    let gates = circuit.gates();
    for (i, gate) in gates.iter().enumerate() {
        let known = &values[..];
        let value = gate_value(gate, i + 1, inputs, &known[0..i], forced);
        values[i] = value;
    }
    InlineList::first(values, gates.len())
}
