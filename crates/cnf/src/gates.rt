// The clauses of the gates in one test.
ghost use Rattle.std.specs.Prelude.{◌≡◌, suc, ◌<◌, ◌≤◌, map, length};
ghost use Rattle.std.specs.List.{AllByRecursion};
ghost use Rattle.circuit.specs.Circuits.{gate_of};
ghost use Rattle.cnf_theory.specs.Literals.{integers};
ghost use Rattle.cnf_theory.specs.Gates.{selection, gate_clauses};
ghost use Rattle.cnf_theory.specs.Formula.{gates_clauses};
ghost use Rattle.cnf.specs.Code.{Fair};
ghost use Rattle.cnf.specs.Counted.{gate_size, gates_size};

use crate::clause::take_clause;
use crate::function::{function_clause_count, write_function};
use crate::literal::Literal;
use crate::sink::ClauseSink;
use crate::variables::{GateVariables, TestVariables};
use circuit::Gate;

// A gate has the value that it computes, or where it is marked the one that is forced.
fn write_selection<K: ClauseSink>(sink: &mut K, gate: GateVariables)
    requires ready { K.ClauseSink.ready sink.old }
    ensures ready { K.ClauseSink.ready sink.new }
    ensures took { K.ClauseSink.took sink.old (integers (selection gate.mark.number gate.computed.number gate.forced.number gate.value.number)) sink.new }
{
    let free = Literal::Positive(gate.mark);
    let marked = Literal::Negative(gate.mark);
    let one = Literal::Positive(gate.value);
    let zero = Literal::Negative(gate.value);
    take_clause(sink, [free, Literal::Negative(gate.computed), one]);
    take_clause(sink, [free, Literal::Positive(gate.computed), zero]);
    take_clause(sink, [marked, Literal::Negative(gate.forced), one]);
    take_clause(sink, [marked, Literal::Positive(gate.forced), zero]);
}

// How many clauses a gate has in a test.
fn gate_clause_count(gate: &Gate) -> usize
    ensures value { result ≡ gate_size (gate_of gate.now) }
    ensures few { result ≤ 13 }
{
    function_clause_count(gate.kind, gate.operands.len()) + 4
}

// The clauses of the gate after `before` others, unless the sink passes them.
fn write_gate<K: ClauseSink>(sink: &mut K, variables: TestVariables, before: usize, gate: &Gate)
    requires ready { K.ClauseSink.ready sink.old }
    requires few { before < 256 }
    requires fair { Fair gate.now }
    ensures ready { K.ClauseSink.ready sink.new }
    ensures took { K.ClauseSink.took sink.old (integers (gate_clauses variables.base variables.inputs (suc before) (gate_of gate.now))) sink.new }
{
    if sink.pass(gate_clause_count(gate)) {
        return;
    }
    let operands = variables.operands(&gate.operands);
    let own = variables.gate(before);
    write_function(sink, gate.kind, own.computed, &operands);
    write_selection(sink, own);
}

// The gates in file order, each with its number.
pub(crate) fn write_gates<K: ClauseSink>(sink: &mut K, variables: TestVariables, gates: &[Gate])
    requires ready { K.ClauseSink.ready sink.old }
    requires few { length gates.now ≤ 256 }
    requires fair { AllByRecursion Fair gates.now }
    ensures ready { K.ClauseSink.ready sink.new }
    ensures took { K.ClauseSink.took sink.old (integers (gates_clauses variables.base variables.inputs 1 (map gate_of gates.now))) sink.new }
{
    for (before, gate) in gates.iter().enumerate() {
        write_gate(sink, variables, before, gate);
    }
}

// How many clauses the gates have in a test.
pub(crate) fn gates_clause_count(gates: &[Gate]) -> usize
    requires { length gates.now ≤ 256 }
    ensures { result ≡ gates_size (map gate_of gates.now) }
{
    gates.iter().map(gate_clause_count).sum()
}
