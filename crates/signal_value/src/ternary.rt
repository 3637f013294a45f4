// The operations on doubtful values, by their tables.
ghost use Rattle.signal_value.specs.Kept.{known};

use crate::doubtful::Doubtful;
use crate::logic::Logic;

impl Logic for Doubtful {
    const LANES: usize = 1;

    ghost LANES = { 1 };

    ghost stands = { λ v _. known v };

    fn constant(bit: bool) -> Doubtful {
        if bit { Doubtful::One } else { Doubtful::Zero }
    }

    // A 0 decides, and a 1 leaves the other value.
    fn and(self, other: Doubtful) -> Doubtful {
        match (self, other) {
            (Doubtful::Zero, _) | (_, Doubtful::Zero) => Doubtful::Zero,
            (Doubtful::One, value) | (value, Doubtful::One) => value,
            (Doubtful::Unknown, Doubtful::Unknown) => Doubtful::Unknown,
        }
    }

    // A 1 decides, and a 0 leaves the other value.
    fn or(self, other: Doubtful) -> Doubtful {
        match (self, other) {
            (Doubtful::One, _) | (_, Doubtful::One) => Doubtful::One,
            (Doubtful::Zero, value) | (value, Doubtful::Zero) => value,
            (Doubtful::Unknown, Doubtful::Unknown) => Doubtful::Unknown,
        }
    }

    // Nothing decides: a 0 leaves the other value, and a 1 inverts it.
    fn xor(self, other: Doubtful) -> Doubtful {
        match self {
            Doubtful::Zero => other,
            Doubtful::One => other.not(),
            Doubtful::Unknown => Doubtful::Unknown,
        }
    }

    fn not(self) -> Doubtful {
        match self {
            Doubtful::Zero => Doubtful::One,
            Doubtful::One => Doubtful::Zero,
            Doubtful::Unknown => Doubtful::Unknown,
        }
    }
}
