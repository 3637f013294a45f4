// Signals, looked up by name.
ghost use Rattle.std.specs.Prelude.{◌≡◌, ◌<◌, map, length, IfSome};
ghost use Rattle.std.specs.List.{position_from};
ghost use Rattle.std.specs.Option.{option_map};
ghost use Rattle.inline_list.specs.Listed.{listed};
ghost use Rattle.netlist_text.specs.Netlists.{same_name, find, signal, signals};
ghost use Rattle.scanner.specs.Named.{name_of};
ghost use Rattle.scanner.specs.Parsed.{names_of};
ghost use Rattle.netlist.specs.Drafts.{draft_of};

use crate::tables::Tables;
use circuit::{Operands, Signal};
use scanner::{Name, same_name};

// Where the first name is that is this word.
fn place_of(names: &[Name], word: &[u8]) -> Option<usize>
    ensures value { result ≡ position_from (λ n. same_name (name_of n) word.now) 0 names.now }
    ensures within { IfSome result (λ at. at < length names.now) }
{
    names
        .iter()
        .position(|name| same_name(name.as_bytes(), word))
}

// The number, from 1, of the first name that is this word.
fn number_of(names: &[Name], word: &[u8]) -> Option<usize>
    ensures { result ≡ find 1 (map name_of names.now) word.now }
{
    Some(place_of(names, word)? + 1)
}

impl Tables {
    // The signal of this name.
    pub(crate) fn signal(&self, word: &[u8]) -> Option<Signal>
        ensures { result ≡ signal (draft_of self.now).netlist word.now }
    {
        if let Some(i) = number_of(self.input_names.as_slice(), word) {
            return Some(Signal::Input(i));
        }
        Some(Signal::Gate(number_of(self.gate_names.as_slice(), word)?))
    }

    // The signals of these names, if each names one.
    pub(crate) fn signals(&self, names: &Operands<Name>) -> Option<Operands<Signal>>
        ensures { option_map listed result ≡ signals (draft_of self.now).netlist (names_of names.now) }
    {
        let mut operands = Operands::none(Signal::Input(0));
        let words = names.as_slice();
        for name in words {
            operands.push(self.signal(name.as_bytes())?).ok()?;
        }
        Some(operands)
    }
}
