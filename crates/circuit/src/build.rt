// Circuits, built up in order.
ghost use Rattle.std.specs.Prelude.{◌≡◌, ◌≤◌, ◌↔◌, map, length, IfOk, IsErrOf, is_ok, if◌then◌else◌, nat_lt};
ghost use Rattle.std.specs.List.{list_all};
ghost use Rattle.circuit.specs.Circuits.{empty, gate_of, there, fits, with_input, with_gate, with_output};
ghost use Rattle.circuit.specs.Held.{circuit_of, admits_gate, admits_output};

use crate::circuit::{Circuit, CircuitFault};
use crate::gate::{Gate, Signal};
use inline_list::Full;
use std::alloc::{AllocError, Global};

impl Circuit {
    pub const MOST_INPUTS: usize = 64;

    pub const MOST_GATES: usize = 256;

    pub const MOST_OUTPUTS: usize = 64;

    // A circuit of nothing, with room for the largest.
    pub fn new(heap: Global) -> Result<Circuit, AllocError>
        ensures { IfOk result (λ c. circuit_of c ≡ empty) }
    {
        let gates = Vec::with_capacity(heap, Self::MOST_GATES)?;
        let outputs = Vec::with_capacity(heap, Self::MOST_OUTPUTS)?;
        Ok(Circuit {
            inputs: 0,
            gates,
            outputs,
        })
    }

    pub fn inputs(&self) -> usize
        ensures { result ≡ (circuit_of self.now).inputs }
    {
        self.inputs
    }

    pub fn gates(&self) -> &[Gate]
        ensures { map gate_of result.now ≡ (circuit_of self.now).gates }
    {
        self.gates.as_slice()
    }

    pub fn outputs(&self) -> &[Signal]
        ensures { result.now ≡ (circuit_of self.now).outputs }
    {
        self.outputs.as_slice()
    }

    // Whether the signal is one of this circuit.
    pub fn has(&self, signal: Signal) -> bool
        ensures { result ≡ there self.now.inputs (length (circuit_of self.now).gates) signal }
    {
        match signal {
            Signal::Input(i) => i >= 1 && i <= self.inputs,
            Signal::Gate(g) => g >= 1 && g <= self.gates.len(),
        }
    }

    // Whether each of these signals is one of this circuit.
    fn has_all(&self, signals: &[Signal]) -> bool
        ensures { result ≡ list_all (there self.now.inputs (length (circuit_of self.now).gates)) signals.now }
    {
        signals.iter().all(|signal| self.has(*signal))
    }

    // Whether the gate's kind takes its operands, and each of them is there.
    fn fits(&self, gate: &Gate) -> bool
        ensures { result ≡ fits self.now.inputs (length (circuit_of self.now).gates) (gate_of gate.now) }
    {
        let operands = gate.operands.as_slice();
        gate.kind.takes(operands.len()) && self.has_all(operands)
    }

    pub fn clear(&mut self)
        ensures { circuit_of self.new ≡ empty }
    {
        self.outputs.clear();
        self.gates.clear();
        self.inputs = 0;
    }

    // One input more, unless there are 64.
    pub fn add_input(&mut self) -> Result<(), Full>
        ensures taken { is_ok result ≡ nat_lt (circuit_of self.old).inputs 64 }
        ensures after { circuit_of self.new ≡ (if is_ok result then with_input (circuit_of self.old) else circuit_of self.old) }
    {
        if self.inputs >= Self::MOST_INPUTS {
            return Err(Full);
        }
        self.inputs += 1;
        Ok(())
    }

    // One gate more, after the others, unless there are 256 or it does not fit there.
    pub fn add_gate(&mut self, gate: Gate) -> Result<(), CircuitFault>
        ensures taken { is_ok result ≡ admits_gate (circuit_of self.old) (gate_of gate) }
        ensures full { IsErrOf result CircuitFault.Full ↔ (256 ≤ length (circuit_of self.old).gates) }
        ensures after { circuit_of self.new ≡ (if is_ok result then with_gate (circuit_of self.old) (gate_of gate) else circuit_of self.old) }
    {
        if self.gates.len() >= Self::MOST_GATES {
            return Err(CircuitFault::Full);
        }
        if !self.fits(&gate) {
            return Err(CircuitFault::Unfit);
        }
        self.gates.push_reserved(gate);
        Ok(())
    }

    // One output more, unless there are 64 or the signal is none of the circuit.
    pub fn add_output(&mut self, signal: Signal) -> Result<(), CircuitFault>
        ensures taken { is_ok result ≡ admits_output (circuit_of self.old) signal }
        ensures full { IsErrOf result CircuitFault.Full ↔ (64 ≤ length (circuit_of self.old).outputs) }
        ensures after { circuit_of self.new ≡ (if is_ok result then with_output (circuit_of self.old) signal else circuit_of self.old) }
    {
        if self.outputs.len() >= Self::MOST_OUTPUTS {
            return Err(CircuitFault::Full);
        }
        if !self.has(signal) {
            return Err(CircuitFault::Unfit);
        }
        self.outputs.push_reserved(signal);
        Ok(())
    }
}
