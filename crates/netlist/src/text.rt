// A text, read line by line into the tables.
ghost use Rattle.std.specs.Prelude.{◌≡◌, IfOk};
ghost use Rattle.netlist_text.specs.Netlists.{blank};
ghost use Rattle.netlist_text.specs.Meaning.{meaning};
ghost use Rattle.netlist.specs.Drafts.{draft_of};
ghost use Rattle.netlist.specs.Faults.{answered};

use crate::fault::ReadFault;
use crate::tables::{OutputLine, Tables};
use circuit::Circuit;
use inline_list::InlineList;
use std::alloc::{AllocError, Global};

const TEXT_BYTES: usize = 60_000;

impl Tables {
    // Empty tables, with room for all that a text may define.
    pub(crate) fn new(heap: Global) -> Result<Tables, AllocError>
        ensures { IfOk result (λ t. draft_of t ≡ blank) }
    {
        let circuit = Circuit::new(heap)?;
        let input_names = Vec::with_capacity(heap, Circuit::MOST_INPUTS)?;
        let gate_names = Vec::with_capacity(heap, Circuit::MOST_GATES)?;
        Ok(Tables {
            circuit,
            input_names,
            gate_names,
            output_lines: InlineList::none(OutputLine::none()),
        })
    }

    pub(crate) fn clear(&mut self)
        ensures { draft_of self.new ≡ blank }
    {
        self.circuit.clear();
        self.input_names.clear();
        self.gate_names.clear();
        self.output_lines.clear();
    }

    // Reads a text into empty tables.
    pub(crate) fn read(&mut self, text: &[u8]) -> Result<(), ReadFault>
        requires { draft_of self.old ≡ blank }
        ensures { answered result (draft_of self.new).netlist ≡ meaning text.now }
    {
        if text.len() > TEXT_BYTES {
            return Err(ReadFault::Long);
        }
        for (i, line) in text.split(|b| *b == b'\n').enumerate() {
            let number = i + 1;
            self.read_line(number, line)
                .map_err(|fault| (number, fault))?;
        }
        self.finish()
    }
}
