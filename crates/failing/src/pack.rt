// Bits packed into a number, the first lowest.
ghost use Rattle.std.specs.Prelude.{◌≡◌, ◌≤◌, length};
ghost use Rattle.failing.specs.Missed.{word_of};

pub(crate) fn pack(bits: &[bool]) -> u32
    requires { length bits.now ≤ 32 }
    ensures { result ≡ word_of bits.now }
{
    let mut word = 0;
    for bit in bits.iter().rev() {
        word = u32::from(*bit) + 2 * word;
    }
    word
}
