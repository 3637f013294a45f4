// A circuit. Its tables have room for the largest that may be read, so adding to it needs no memory.
ghost use Rattle.std.specs.Prelude.{◌≡◌, ◌≤◌, true, map, vec_len, vec_capacity};
ghost use Rattle.std.specs.List.{list_all};
ghost use Rattle.circuit.specs.Circuits.{gate_of, there, wired};

use crate::gate::{Gate, Signal};

#[derive(Drop)]
pub struct Circuit {
    pub(crate) inputs: usize,
    pub(crate) gates: Vec<Gate>,
    pub(crate) outputs: Vec<Signal>,
    ghost few_inputs: { inputs ≤ 64 },
    ghost few_gates: { vec_len gates ≤ 256 },
    ghost few_outputs: { vec_len outputs ≤ 64 },
    ghost in_order: { wired inputs 0 (map gate_of gates.items) ≡ true },
    ghost shown: { list_all (there inputs (vec_len gates)) outputs.items ≡ true },
    ghost gate_room: { 256 ≤ vec_capacity gates },
    ghost output_room: { 64 ≤ vec_capacity outputs },
}

// Why a gate or an output is not added.
#[derive(Clone, Copy, PartialEq, Eq, Debug)]
pub enum CircuitFault {
    // there are as many as there may be
    Full,
    // the gate's kind does not take its operands, or a signal is none of those there
    Unfit,
}
