// Lines, read one after another.
ghost use Rattle.std.specs.Prelude.{◌≡◌};
ghost use Rattle.netlist_text.specs.Meaning.{read_line};
ghost use Rattle.netlist.specs.Drafts.{draft_of};
ghost use Rattle.netlist.specs.Faults.{told_on};

use crate::fault::LineFault;
use crate::tables::Tables;
use scanner::{Statement, parse};

impl Tables {
    // Takes the line of this number.
    pub(crate) fn read_line(&mut self, number: usize, line: &[u8]) -> Result<(), LineFault>
        ensures { told_on number result (draft_of self.new) ≡ read_line (draft_of self.old) number line.now }
    {
        if line.is_empty() || line[0] == b'#' {
            return Ok(());
        }
        match parse(line)?.ok_or(LineFault::Form)? {
            Statement::Input(name) => self.admit_input(name),
            Statement::Output(name) => self.admit_output(number, name),
            Statement::Gate {
                name,
                kind,
                operands,
            } => self.admit_gate(name, kind, &operands),
            Statement::Crowded => Err(LineFault::OperandCount),
        }
    }
}
