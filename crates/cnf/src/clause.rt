// Clauses, as they are handed over.
ghost use Rattle.std.specs.Prelude.{[], ◌∷◌, map};
ghost use Rattle.cnf_theory.specs.Literals.{integers};
ghost use Rattle.cnf.specs.Code.{literal_of};

use crate::literal::Literal;
use crate::sink::ClauseSink;

// A clause of these literals.
#[tactic(auto, using(crate::proofs::Pieces::map_more))]
pub(crate) fn take_clause<K: ClauseSink, const N: usize>(sink: &mut K, literals: [Literal; N])
    requires ready { K.ClauseSink.ready sink.old }
    ensures ready { K.ClauseSink.ready sink.new }
    ensures took { K.ClauseSink.took sink.old (integers (map literal_of literals.entry ∷ [])) sink.new }
{
    let mut clause = [0; N];
    // Kept: an array's `map` says which calls were made, and no proof found what they gave (tried `i32::from` by name, a closure, and each element's clause).
    for (i, literal) in literals.iter().enumerate() {
        clause[i] = i32::from(*literal);
    }
    sink.take(&clause);
}
