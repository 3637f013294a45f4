// The word of the tests that are missed.
ghost use Rattle.std.specs.Prelude.{◌≡◌, map};
ghost use Rattle.circuit.specs.Held.{circuit_of};
ghost use Rattle.testlog.specs.Held.{tests_of};
ghost use Rattle.failing.specs.Missed.{missed, word_of};

use crate::agree::is_shown;
use crate::columns::input_words;
use crate::pack::pack;
use circuit::Circuit;
use evaluate::{Forced, evaluate};
use inline_list::InlineList;
use signal_value::Word;
use testlog::TestTable;

// Bit t is set if the circuit, no gate misbehaving, misses a measured output of test t.
pub fn failing(circuit: &Circuit, tests: &TestTable) -> u32
    ensures { result ≡ word_of (map (missed (circuit_of circuit.now)) (tests_of tests.now)) }
{
    let held = tests.tests();
    let applied = input_words(held);
    let applied = &applied[..];
    let inputs = &applied[0..circuit.inputs()];
    let unforced: &[Forced<Word>] = &[];
    let values = evaluate(circuit, inputs, unforced);
    let mut missed: InlineList<bool, 32> = InlineList::none(false);
    for (t, test) in held.iter().enumerate() {
        let _ = missed.push(!is_shown(circuit, test, inputs, values.as_slice(), t));
    }
    pack(missed.as_slice())
}
