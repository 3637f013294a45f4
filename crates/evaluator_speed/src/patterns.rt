// Bits for the inputs of each test, the same in every run.
ghost use Rattle.std.specs.Prelude.{◌<◌};

use signal_value::Word;
use std::array;

pub const INPUTS: usize = 16;

pub const TESTS: u32 = 32;

fn bit(test: u32, round: u32, input: usize) -> bool
    requires { input < 16 }
{
    let mixed = (test ^ round.wrapping_mul(64)).wrapping_mul(2_654_435_761)
        ^ (input as u32).wrapping_mul(40_503);
    mixed.wrapping_mul(2_246_822_519) / 32_768 % 2 == 1
}

// The inputs of a test.
pub fn bits(test: u32, round: u32) -> [bool; INPUTS] {
    array::from_fn(|input| bit(test, round, input))
}

// The inputs of all tests, a lane each.
pub fn words(round: u32) -> [Word; INPUTS] {
    array::from_fn(|input| {
        Word((0..TESTS).fold(0, |word: u32, test| {
            word | u32::from(bit(test, round, input)).wrapping_shl(test)
        }))
    })
}
