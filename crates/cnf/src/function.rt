// The clauses of a gate's function.
ghost use Rattle.std.specs.Prelude.{◌≡◌, ◌≤◌, true, not, [], ◌∷◌, map, length};
ghost use Rattle.inline_list.specs.Listed.{listed};
ghost use Rattle.circuit.specs.Kinds.{takes};
ghost use Rattle.cnf_theory.specs.Literals.{signed, positive, negative, integer, integers};
ghost use Rattle.cnf_theory.specs.Gates.{conjunction, function};
ghost use Rattle.cnf.specs.Code.{literal_of, numbers};
ghost use Rattle.cnf.specs.Counted.{function_size};

use crate::clause::take_clause;
use crate::literal::{Literal, Variable};
use crate::sink::ClauseSink;
use circuit::{Kind, Operands};
use inline_list::InlineList;

// A literal and the operands' literals of one sign, as they are handed over.
fn with_operands(first: Literal, value: bool, operands: &Operands<Variable>) -> InlineList<i32, 9>
    ensures { listed result ≡ map integer (literal_of first ∷ map (signed value) (numbers (listed operands.now))) }
{
    let mut clause = InlineList::none(0);
    let _ = clause.push(i32::from(first));
    for operand in operands.as_slice() {
        let _ = clause.push(i32::from(operand.with(value)));
    }
    clause
}

// A literal of l is true just if the literals of all operands are.
// Kept: the signs are flags, as the definition of a conjunction has them.
fn write_conjunction<K: ClauseSink>(
    sink: &mut K,
    value: bool,
    each: bool,
    l: Variable,
    operands: &Operands<Variable>,
)
    requires ready { K.ClauseSink.ready sink.old }
    ensures ready { K.ClauseSink.ready sink.new }
    ensures took { K.ClauseSink.took sink.old (integers (conjunction value each l.number (numbers (listed operands.now)))) sink.new }
{
    for operand in operands.as_slice() {
        take_clause(sink, [l.with(!value), operand.with(each)]);
    }
    sink.take(with_operands(l.with(value), !each, operands).as_slice());
}

// The table of XOR of two operands, or of XNOR.
fn write_parity<K: ClauseSink>(sink: &mut K, odd: bool, l: Variable, a: Variable, b: Variable)
    requires ready { K.ClauseSink.ready sink.old }
    ensures ready { K.ClauseSink.ready sink.new }
    ensures took { K.ClauseSink.took sink.old (integers ((positive a.number ∷ positive b.number ∷ signed (not odd) l.number ∷ []) ∷ (negative a.number ∷ positive b.number ∷ signed odd l.number ∷ []) ∷ (positive a.number ∷ negative b.number ∷ signed odd l.number ∷ []) ∷ (negative a.number ∷ negative b.number ∷ signed (not odd) l.number ∷ []) ∷ [])) sink.new }
{
    let even = l.with(!odd);
    let uneven = l.with(odd);
    take_clause(sink, [Literal::Positive(a), Literal::Positive(b), even]);
    take_clause(sink, [Literal::Negative(a), Literal::Positive(b), uneven]);
    take_clause(sink, [Literal::Positive(a), Literal::Negative(b), uneven]);
    take_clause(sink, [Literal::Negative(a), Literal::Negative(b), even]);
}

// What a gate's kind gives for its operands' values.
pub(crate) fn write_function<K: ClauseSink>(
    sink: &mut K,
    kind: Kind,
    l: Variable,
    operands: &Operands<Variable>,
)
    requires ready { K.ClauseSink.ready sink.old }
    requires takes { takes kind (length (listed operands.now)) ≡ true }
    ensures ready { K.ClauseSink.ready sink.new }
    ensures took { K.ClauseSink.took sink.old (integers (function kind l.number (numbers (listed operands.now)))) sink.new }
{
    let taken = operands.as_slice();
    match kind {
        Kind::And => write_conjunction(sink, true, true, l, operands),
        Kind::Nand => write_conjunction(sink, false, true, l, operands),
        Kind::Or => write_conjunction(sink, false, false, l, operands),
        Kind::Nor => write_conjunction(sink, true, false, l, operands),
        Kind::Not => write_conjunction(sink, false, true, l, operands),
        Kind::Xor => write_parity(sink, true, l, taken[0], taken[1]),
        Kind::Xnor => write_parity(sink, false, l, taken[0], taken[1]),
    }
}

// How many clauses a kind's function has.
pub(crate) fn function_clause_count(kind: Kind, operands: usize) -> usize
    requires { operands ≤ 8 }
    ensures { result ≡ function_size kind operands }
{
    match kind {
        Kind::And | Kind::Nand | Kind::Or | Kind::Nor | Kind::Not => operands + 1,
        Kind::Xor | Kind::Xnor => 4,
    }
}
