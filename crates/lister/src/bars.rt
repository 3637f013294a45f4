// The clauses that bar the sets given before.
ghost use Rattle.std.specs.Prelude.{◌≡◌, [], ◌∷◌, map};
ghost use Rattle.std.specs.List.{AllByRecursion};
ghost use Rattle.cnf_theory.specs.Literals.{integer, integers};
ghost use Rattle.candidates.specs.Added.{barring};
ghost use Rattle.inline_list.specs.Listed.{listed};
ghost use Rattle.gate_set.specs.Held.{set_of, sets_of};
ghost use Rattle.lister.specs.Asked.{GateNumbers};

use crate::literal::literal;
use cnf::ClauseSink;
use gate_set::GateSet;
use inline_list::InlineList;

// The negated marks of a set's gates.
fn bar_clause(set: &GateSet) -> InlineList<i32, 6>
    requires { GateNumbers (set_of set.now) }
    ensures { listed result ≡ map integer (barring (set_of set.now)) }
{
    let mut clause = InlineList::none(0);
    for gate in set.as_slice() {
        let _ = clause.push(literal(*gate, false));
    }
    clause
}

fn write_bar<K: ClauseSink>(sink: &mut K, set: &GateSet)
    requires ready { K.ClauseSink.ready sink.old }
    requires numbers { GateNumbers (set_of set.now) }
    ensures ready { K.ClauseSink.ready sink.new }
    ensures took { K.ClauseSink.took sink.old (integers (barring (set_of set.now) ∷ [])) sink.new }
{
    sink.take(bar_clause(set).as_slice());
}

// A clause for each set, in their order.
pub(crate) fn write_bars<K: ClauseSink>(sink: &mut K, sets: &[GateSet])
    requires ready { K.ClauseSink.ready sink.old }
    requires numbers { AllByRecursion GateNumbers (sets_of sets.now) }
    ensures ready { K.ClauseSink.ready sink.new }
    ensures took { K.ClauseSink.took sink.old (integers (map barring (sets_of sets.now))) sink.new }
{
    for set in sets {
        write_bar(sink, set);
    }
}
