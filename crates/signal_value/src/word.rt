// The word: 32 lanes, a known bit in each.
ghost use Rattle.std.specs.Prelude.{◌≡◌, ◌<◌};
ghost use Rattle.signal_value.specs.Possible.{only};
ghost use Rattle.signal_value.specs.Kept.{lane};

use crate::logic::Logic;

// Lane i is bit i.
#[derive(Clone, Copy)]
pub struct Word(pub u32);

impl Word {
    // The bit in lane i.
    pub fn lane(self, i: usize) -> bool
        requires { i < 32 }
        ensures { result ≡ lane self.0 i }
    {
        (self.0 >> i) % 2 == 1
    }
}

impl Logic for Word {
    const LANES: usize = 32;

    ghost LANES = { 32 };

    ghost stands = { λ w i. only (lane w.0 i) };

    fn constant(bit: bool) -> Word {
        if bit { Word(u32::MAX) } else { Word(0) }
    }

    fn and(self, other: Word) -> Word {
        Word(self.0 & other.0)
    }

    fn or(self, other: Word) -> Word {
        Word(self.0 | other.0)
    }

    fn xor(self, other: Word) -> Word {
        Word(self.0 ^ other.0)
    }

    fn not(self) -> Word {
        Word(!self.0)
    }
}
