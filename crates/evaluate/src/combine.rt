// Combining two values by a connective, and the connective of each kind.
ghost use Rattle.std.specs.Prelude.{◌≡◌, ℕ, ◌<◌};
ghost use Rattle.signal_value.specs.Law.{Follows2};
ghost use Rattle.evaluate.specs.Connectives.{connective_of, inverts, joins, neutral};

use crate::connective::Connective;
use circuit::Kind;
use signal_value::Logic;

impl Connective {
    pub(crate) fn of(kind: Kind) -> Connective
        ensures { result ≡ connective_of kind }
    {
        match kind {
            Kind::And | Kind::Nand => Connective::And,
            Kind::Or | Kind::Nor | Kind::Not => Connective::Or,
            Kind::Xor | Kind::Xnor => Connective::Xor,
        }
    }

    // The bit that combines with any other to that other.
    pub(crate) fn neutral(self) -> bool
        ensures { result ≡ neutral self }
    {
        match self {
            Connective::And => true,
            Connective::Or | Connective::Xor => false,
        }
    }

    pub(crate) fn join<L: Logic>(self, a: L, b: L) -> L
        ensures { (i : ℕ) → i < L.Logic.LANES → Follows2 (joins self) (L.Logic.stands a i) (L.Logic.stands b i) (L.Logic.stands result i) }
    {
        match self {
            Connective::And => a.and(b),
            Connective::Or => a.or(b),
            Connective::Xor => a.xor(b),
        }
    }
}

// Whether the kind inverts what its operands combine to.
pub(crate) fn is_inverting(kind: Kind) -> bool
    ensures { result ≡ inverts kind }
{
    match kind {
        Kind::And | Kind::Or | Kind::Xor => false,
        Kind::Nand | Kind::Nor | Kind::Xnor | Kind::Not => true,
    }
}
