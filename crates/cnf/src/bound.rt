// The bound of a list: no set on it has more gates.
ghost use Rattle.std.specs.Prelude.{◌≡◌, ◌≤◌, if◌then◌else◌, Some, None, nat_le};
ghost use Rattle.std.specs.Option.{option_map};

#[derive(Clone, Copy)]
pub struct Bound {
    value: usize,
    ghost few: { value ≤ 6 },
}

impl Bound {
    // The bound of this value, which is 6 at most.
    // Kept: an `Option`, as for std's `NonZero`: there is one reason to refuse.
    pub fn new(value: usize) -> Option<Bound>
        ensures { option_map (λ b. b.value) result ≡ (if nat_le value 6 then Some value else None) }
    {
        if value <= 6 {
            Some(Bound { value })
        } else {
            None
        }
    }

    pub fn value(self) -> usize
        ensures { result ≡ self.value }
    {
        self.value
    }
}
