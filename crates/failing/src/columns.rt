// A word for each input, with a lane for each test.
ghost use Rattle.std.specs.Prelude.{◌≡◌, ℕ, ◌<◌, ◌≤◌, false, map, length, slice_index, slice_index_or};
ghost use Rattle.testlog.specs.Held.{test_of};
ghost use Rattle.failing.specs.Missed.{word_of};
ghost use Rattle.failing.specs.Columns.{column};

use crate::pack::pack;
use circuit::Circuit;
use inline_list::InlineList;
use signal_value::Word;
use testlog::Test;

// The bit at an input, counted from 0; 0 where there is none.
fn input_bit(inputs: &[bool], input: usize) -> bool
    ensures { result ≡ slice_index_or inputs.now input false }
{
    inputs.get(input).copied().unwrap_or(false)
}

fn input_word(tests: &[Test], input: usize) -> Word
    requires { length tests.now ≤ 32 }
    ensures { result.0 ≡ word_of (column (map test_of tests.now) input) }
{
    let mut bits: InlineList<bool, 32> = InlineList::none(false);
    for test in tests {
        let _ = bits.push(input_bit(test.inputs(), input));
    }
    Word(pack(bits.as_slice()))
}

// Kept: a loop by index: tried `array::from_fn`; the proof did not close, as nothing tells what each call gave.
pub(crate) fn input_words(tests: &[Test]) -> [Word; 64]
    requires { length tests.now ≤ 32 }
    ensures len { length result ≡ 64 }
    ensures each { (k : ℕ) → k < 64 → slice_index (map (λ w. w.0) result) k ≡ word_of (column (map test_of tests.now) k) }
{
    let mut words = [Word(0); Circuit::MOST_INPUTS];
    for input in 0..Circuit::MOST_INPUTS {
        words[input] = input_word(tests, input);
    }
    words
}
