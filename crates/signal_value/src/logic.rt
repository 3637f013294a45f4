// What an evaluator asks of a kind of signal values.
ghost use Rattle.std.specs.Prelude.{◌≡◌, ℕ, ◌<◌, not, ◌&&◌, ◌||◌};
ghost use Rattle.signal_value.specs.Possible.{Possible, only};
ghost use Rattle.signal_value.specs.Law.{Follows, Follows2, xor};

// A value has a number of lanes, and in each lane it stands for one bit or for both.
// What an operation gives follows the law in each lane: it stands for every bit that the operands' bits can give, and for no other.
pub trait Logic: Copy {
    const LANES: usize;

    ghost LANES: { ℕ };

    // What a value stands for in a lane.
    ghost stands: { Self → ℕ → Possible };

    // The bit in each lane.
    fn constant(bit: bool) -> Self
        ensures { (i : ℕ) → i < LANES → stands result i ≡ only bit };

    fn and(self, other: Self) -> Self
        ensures { (i : ℕ) → i < LANES → Follows2 ◌&&◌ (stands self i) (stands other i) (stands result i) };

    fn or(self, other: Self) -> Self
        ensures { (i : ℕ) → i < LANES → Follows2 ◌||◌ (stands self i) (stands other i) (stands result i) };

    fn xor(self, other: Self) -> Self
        ensures { (i : ℕ) → i < LANES → Follows2 xor (stands self i) (stands other i) (stands result i) };

    fn not(self) -> Self
        ensures { (i : ℕ) → i < LANES → Follows not (stands self i) (stands result i) };
}
