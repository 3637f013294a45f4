// The doubtful value: a bit that is known, or unknown.
ghost use Rattle.std.specs.Prelude.{◌≡◌};
ghost use Rattle.signal_value.specs.Kept.{known, byte_of};

#[derive(Clone, Copy, PartialEq, Eq, Debug)]
pub enum Doubtful {
    Zero = 0,
    One = 1,
    Unknown = 2,
}

// 0 or 1 for a known bit, 2 for unknown.
impl From<Doubtful> for u8 {
    ghost from_gives = { λ value byte. byte ≡ byte_of (known value) };

    fn from(value: Doubtful) -> u8 {
        value as u8
    }
}
