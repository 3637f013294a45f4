// Signals, and gates with their operands.
ghost use Rattle.std.specs.Prelude.{◌≡◌, Decides};
ghost use Rattle.std.specs.Cmp.{decided, partial_equiv_from_equiv};
ghost use Rattle.circuit.specs.SignalEq.{signal_eq, signal_eq_decides};

use crate::kind::Kind;
use inline_list::InlineList;

// An input or a gate's output, by its number. Inputs and gates are numbered from 1, each in the order of their lines.
#[derive(Clone, Copy, Debug)]
pub enum Signal {
    Input(usize),
    Gate(usize),
}

// Kept: an edit that must fail turns a comparison of this body, and a derive has none.
impl PartialEq for Signal {
    ghost eq = { signal_eq };

    ghost laws = { partial_equiv_from_equiv (decided signal_eq signal_eq_decides) };

    fn eq(&self, other: &Signal) -> bool
        ensures value { result ≡ signal_eq self.now other.now }
        ensures same { Decides result (self.now ≡ other.now) }
    {
        match (*self, *other) {
            (Signal::Input(i), Signal::Input(j)) => i == j,
            (Signal::Gate(g), Signal::Gate(h)) => g == h,
            _ => false,
        }
    }
}

// A gate's operands, as signals or still as names. No kind takes more than eight.
pub type Operands<T> = InlineList<T, 8>;

#[derive(Clone, Copy)]
pub struct Gate {
    pub kind: Kind,
    pub operands: Operands<Signal>,
}
