// The clauses of one test.
ghost use Rattle.std.specs.Prelude.{◌≡◌, ◌≤◌, length, count_by, is_some};
ghost use Rattle.std.specs.List.{AllByRecursion};
ghost use Rattle.circuit.specs.Held.{circuit_of};
ghost use Rattle.testlog.specs.Held.{test_of};
ghost use Rattle.cnf_theory.specs.Literals.{integers};
ghost use Rattle.cnf_theory.specs.Formula.{input_clauses, measured_clauses, output_clauses, test_clauses};
ghost use Rattle.cnf.specs.Code.{Near};
ghost use Rattle.cnf.specs.Counted.{gates_size, outputs_size};

use crate::clause::take_clause;
use crate::gates::write_gates;
use crate::sink::ClauseSink;
use crate::variables::TestVariables;
use circuit::{Circuit, Signal};
use testlog::Test;

// The recorded value of each input.
fn write_inputs<K: ClauseSink>(sink: &mut K, variables: TestVariables, inputs: &[bool])
    requires ready { K.ClauseSink.ready sink.old }
    requires few { length inputs.now ≤ 64 }
    ensures ready { K.ClauseSink.ready sink.new }
    ensures took { K.ClauseSink.took sink.old (integers (input_clauses variables.base 1 inputs.now)) sink.new }
{
    for (before, value) in inputs.iter().enumerate() {
        take_clause(sink, [variables.input(before).with(*value)]);
    }
}

// The value measured at an output, if one was.
fn write_measured<K: ClauseSink>(
    sink: &mut K,
    variables: TestVariables,
    output: Signal,
    measured: Option<bool>,
)
    requires ready { K.ClauseSink.ready sink.old }
    requires near { Near output }
    ensures ready { K.ClauseSink.ready sink.new }
    ensures took { K.ClauseSink.took sink.old (integers (measured_clauses variables.base variables.inputs output measured)) sink.new }
{
    if let Some(value) = measured {
        take_clause(sink, [variables.signal(output).with(value)]);
    }
}

// The values measured at the outputs.
fn write_outputs<K: ClauseSink>(
    sink: &mut K,
    variables: TestVariables,
    outputs: &[Signal],
    measured: &[Option<bool>],
)
    requires ready { K.ClauseSink.ready sink.old }
    requires near { AllByRecursion Near outputs.now }
    ensures ready { K.ClauseSink.ready sink.new }
    ensures took { K.ClauseSink.took sink.old (integers (output_clauses variables.base variables.inputs outputs.now measured.now)) sink.new }
{
    for (output, value) in outputs.iter().zip(measured) {
        write_measured(sink, variables, *output, *value);
    }
}

// How many values were measured.
fn measured_count(values: &[Option<bool>]) -> usize
    requires { length values.now ≤ 64 }
    ensures { result ≡ count_by is_some values.now }
{
    values
        .iter()
        .map(|value| usize::from(value.is_some()))
        .sum()
}

// How many clauses the outputs have: one for each that was measured.
fn outputs_clause_count(outputs: &[Signal], measured: &[Option<bool>]) -> usize
    requires { length outputs.now ≤ 64 }
    ensures { result ≡ outputs_size outputs.now measured.now }
{
    measured_count(&measured[..outputs.len().min(measured.len())])
}

// The inputs, the gates, and the outputs that were measured, unless the sink passes them; `gates` is how many clauses the gates have.
pub(crate) fn write_test<K: ClauseSink>(
    sink: &mut K,
    variables: TestVariables,
    circuit: &Circuit,
    gates: usize,
    test: &Test,
)
    requires ready { K.ClauseSink.ready sink.old }
    requires inputs { variables.inputs ≡ (circuit_of circuit.now).inputs }
    requires gates { gates ≡ gates_size (circuit_of circuit.now).gates }
    ensures ready { K.ClauseSink.ready sink.new }
    ensures took { K.ClauseSink.took sink.old (integers (test_clauses (circuit_of circuit.now) variables.base (test_of test.now))) sink.new }
{
    let outputs = outputs_clause_count(circuit.outputs(), test.outputs());
    if sink.pass(test.inputs().len() + gates + outputs) {
        return;
    }
    write_inputs(sink, variables, test.inputs());
    write_gates(sink, variables, circuit.gates());
    write_outputs(sink, variables, circuit.outputs(), test.outputs());
}
