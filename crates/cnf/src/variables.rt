// The variables of one test.
ghost use Rattle.std.specs.Prelude.{◌≤◌};

use crate::literal::Variable;
use circuit::{Operands, Signal};

// They come after `base` others: one for each input, and three for each gate.
#[derive(Clone, Copy)]
pub(crate) struct TestVariables {
    pub base: usize,
    pub inputs: usize,
    ghost few_before: { base ≤ 90000 },
    ghost few_inputs: { inputs ≤ 64 },
}

// A gate's: its mark, what its function gives, the value forced where it is marked, and its value.
#[derive(Clone, Copy)]
pub(crate) struct GateVariables {
    pub mark: Variable,
    pub computed: Variable,
    pub forced: Variable,
    pub value: Variable,
}

impl TestVariables {
    ghost use Rattle.std.specs.Prelude.{◌≡◌, suc, ◌<◌, map};
    ghost use Rattle.std.specs.List.{AllByRecursion};
    ghost use Rattle.inline_list.specs.Listed.{listed};
    ghost use Rattle.cnf_theory.specs.Variables.{input_variable, computed_variable, forced_variable, value_variable, signal_variable};
    ghost use Rattle.cnf.specs.Code.{Near, numbers};

    // The value of the input after `before` others.
    pub(crate) fn input(self, before: usize) -> Variable
        requires { before < 64 }
        ensures { result.number ≡ input_variable self.base (suc before) }
    {
        Variable {
            number: self.base + (before + 1),
        }
    }

    // Those of the gate after `before` others.
    pub(crate) fn gate(self, before: usize) -> GateVariables
        requires { before < 256 }
        ensures mark { result.mark.number ≡ suc before }
        ensures computed { result.computed.number ≡ computed_variable self.base self.inputs (suc before) }
        ensures forced { result.forced.number ≡ forced_variable self.base self.inputs (suc before) }
        ensures value { result.value.number ≡ value_variable self.base self.inputs (suc before) }
    {
        let first = self.base + (self.inputs + (before * 3 + 1));
        GateVariables {
            mark: Variable { number: before + 1 },
            computed: Variable { number: first },
            forced: Variable { number: first + 1 },
            value: Variable { number: first + 2 },
        }
    }

    // A signal's value.
    pub(crate) fn signal(self, signal: Signal) -> Variable
        requires { Near signal }
        ensures { result.number ≡ signal_variable self.base self.inputs signal }
    {
        match signal {
            Signal::Input(i) => self.input(i - 1),
            Signal::Gate(g) => self.gate(g - 1).value,
        }
    }

    // The values of a gate's operands.
    pub(crate) fn operands(self, operands: &Operands<Signal>) -> Operands<Variable>
        requires { AllByRecursion Near (listed operands.now) }
        ensures { numbers (listed result) ≡ map (signal_variable self.base self.inputs) (listed operands.now) }
    {
        let mut variables = Operands::none(Variable { number: 1 });
        for operand in operands.as_slice() {
            let _ = variables.push(self.signal(*operand));
        }
        variables
    }
}
