// The bit: one lane, always known.
ghost use Rattle.signal_value.specs.Possible.{only};

use crate::logic::Logic;

impl Logic for bool {
    const LANES: usize = 1;

    ghost LANES = { 1 };

    ghost stands = { λ b _. only b };

    fn constant(bit: bool) -> bool {
        bit
    }

    fn and(self, other: bool) -> bool {
        self & other
    }

    fn or(self, other: bool) -> bool {
        self | other
    }

    fn xor(self, other: bool) -> bool {
        self ^ other
    }

    fn not(self) -> bool {
        !self
    }
}
