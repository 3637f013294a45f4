// One statement after another, admitted into the tables.
ghost use Rattle.std.specs.Prelude.{◌≡◌};
ghost use Rattle.netlist_text.specs.Statements.{input, output, gate};
ghost use Rattle.netlist_text.specs.Meaning.{admitted};
ghost use Rattle.scanner.specs.Named.{name_of};
ghost use Rattle.scanner.specs.Parsed.{names_of};
ghost use Rattle.netlist.specs.Drafts.{draft_of};
ghost use Rattle.netlist.specs.Faults.{told};

use crate::fault::LineFault;
use crate::tables::{OutputLine, Tables};
use circuit::{Gate, Kind, Operands};
use scanner::Name;

impl Tables {
    pub(crate) fn admit_input(&mut self, name: Name) -> Result<(), LineFault>
        ensures { told result (draft_of self.new) ≡ admitted (draft_of self.old) 0 (input (name_of name)) }
    {
        if self.signal(name.as_bytes()).is_some() {
            return Err(LineFault::Redefined);
        }
        self.circuit.add_input()?;
        self.input_names.push_reserved(name);
        Ok(())
    }

    pub(crate) fn admit_output(&mut self, line: usize, name: Name) -> Result<(), LineFault>
        ensures { told result (draft_of self.new) ≡ admitted (draft_of self.old) line (output (name_of name)) }
    {
        self.output_lines.push(OutputLine { name, line })?;
        Ok(())
    }

    pub(crate) fn admit_gate(
        &mut self,
        name: Name,
        kind: Kind,
        operands: &Operands<Name>,
    ) -> Result<(), LineFault>
        ensures { told result (draft_of self.new) ≡ admitted (draft_of self.old) 0 (gate (name_of name) kind (names_of operands.now)) }
    {
        if !kind.takes(operands.len()) {
            return Err(LineFault::OperandCount);
        }
        if self.signal(name.as_bytes()).is_some() {
            return Err(LineFault::Redefined);
        }
        let operands = self.signals(operands).ok_or(LineFault::Undefined)?;
        self.circuit
            .add_gate(Gate { kind, operands })
            .map_err(|_| LineFault::Full)?;
        self.gate_names.push_reserved(name);
        Ok(())
    }
}
