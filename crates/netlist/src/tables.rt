// The tables that a netlist is read into, with room for all that a text may define.
ghost use Rattle.std.specs.Prelude.{◌≡◌, ◌≤◌, length, vec_len, vec_capacity};
ghost use Rattle.circuit.specs.Held.{circuit_of};

use circuit::Circuit;
use inline_list::InlineList;
use scanner::Name;

// The name in an OUTPUT line, and the line's number.
#[derive(Clone, Copy)]
pub(crate) struct OutputLine {
    pub name: Name,
    pub line: usize,
}

impl OutputLine {
    // What stands where there is no OUTPUT line.
    pub(crate) fn none() -> OutputLine {
        OutputLine {
            name: Name::none(),
            line: 0,
        }
    }
}

#[derive(Drop)]
pub(crate) struct Tables {
    pub circuit: Circuit,
    pub input_names: Vec<Name>,
    pub gate_names: Vec<Name>,
    pub output_lines: InlineList<OutputLine, 64>,
    ghost inputs_named: { vec_len input_names ≡ (circuit_of circuit).inputs },
    ghost gates_named: { vec_len gate_names ≡ length (circuit_of circuit).gates },
    ghost input_room: { 64 ≤ vec_capacity input_names },
    ghost gate_room: { 256 ≤ vec_capacity gate_names },
}
