// A whole text, read into the tables.
ghost use Rattle.std.specs.Prelude.{◌≡◌, ◌<◌, [], length};
ghost use Rattle.netlist_text.specs.Netlists.{signal};
ghost use Rattle.netlist_text.specs.Meaning.{shows, shown, with_outputs, lacking, finished};
ghost use Rattle.scanner.specs.Named.{name_of};
ghost use Rattle.netlist.specs.Drafts.{draft_of};
ghost use Rattle.netlist.specs.Faults.{answered};

use crate::fault::ReadFault;
use crate::tables::{OutputLine, Tables};
use circuit::Signal;

impl Tables {
    // Whether the signal is one of the outputs so far.
    fn is_shown(&self, signal: Signal) -> bool
        ensures { result ≡ shows (draft_of self.now).netlist signal }
    {
        self.circuit.outputs().contains(&signal)
    }

    // Adds the output that a line names.
    fn show(&mut self, output: OutputLine) -> Result<(), ReadFault>
        requires { length (draft_of self.old).netlist.circuit.outputs < 64 }
        ensures { answered result (draft_of self.new).netlist ≡ shown (draft_of self.old).netlist output.line (signal (draft_of self.old).netlist (name_of output.name)) }
    {
        let fault = ReadFault::Output(output.line);
        let signal = self.signal(output.name.as_bytes()).ok_or(fault)?;
        if self.is_shown(signal) {
            return Err(fault);
        }
        self.circuit.add_output(signal).map_err(|_| fault)
    }

    // Adds the outputs of the OUTPUT lines, in order.
    fn show_outputs(&mut self) -> Result<(), ReadFault>
        requires { (draft_of self.old).netlist.circuit.outputs ≡ [] }
        ensures { answered result (draft_of self.new).netlist ≡ with_outputs (draft_of self.old).netlist (draft_of self.old).outputs }
    {
        let lines = self.output_lines;
        let lines = lines.as_slice();
        for output in lines {
            self.show(*output)?;
        }
        Ok(())
    }

    // Whether there is no input, no output or no gate.
    fn lacks(&self) -> bool
        ensures { result ≡ lacking (draft_of self.now) }
    {
        self.circuit.inputs() == 0
            || self.output_lines.as_slice().is_empty()
            || self.circuit.gates().is_empty()
    }

    // What is asked when every line is read.
    pub(crate) fn finish(&mut self) -> Result<(), ReadFault>
        requires { (draft_of self.old).netlist.circuit.outputs ≡ [] }
        ensures { answered result (draft_of self.new).netlist ≡ finished (draft_of self.old) }
    {
        if self.lacks() {
            return Err(ReadFault::Lacking);
        }
        self.show_outputs()
    }
}
