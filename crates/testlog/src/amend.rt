// What a change of an output hands in.
ghost use Rattle.std.specs.Prelude.{◌≡◌};
ghost use Rattle.test_format.specs.Amending.{reading};

// What a number says of an output: 0 or 1 was measured there, or (2) nothing.
// Kept: no `TryFrom`, since what it gives is an Option, a type of the library's.
pub(crate) fn reading(value: u8) -> Option<Option<bool>>
    ensures { result ≡ reading value }
{
    match value {
        0 => Some(Some(false)),
        1 => Some(Some(true)),
        2 => Some(None),
        _ => None,
    }
}
