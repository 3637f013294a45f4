// The values that a call forces on a set.
ghost use Rattle.std.specs.Prelude.{◌≡◌, ◌≤◌, length};
ghost use Rattle.inline_list.specs.Listed.{listed};
ghost use Rattle.replay.specs.ForcedSets.{forced_bits, forced_unknown};

use evaluate::Forced;
use inline_list::InlineList;
use signal_value::Doubtful;

// Bit i of the byte, counted from 0, at the set's gate i.
// Kept: two loops, since one over a list of values beside the set would have to make that list first.
pub(crate) fn forced_bits(set: &[usize], byte: u8) -> InlineList<Forced<bool>, 8>
    requires { length set.now ≤ 8 }
    ensures { listed result ≡ forced_bits set.now byte }
{
    let mut forced = InlineList::none(Forced {
        gate: 0,
        value: false,
    });
    let mut rest = byte;
    for gate in set {
        let _ = forced.push(Forced {
            gate: *gate,
            value: rest % 2 == 1,
        });
        rest /= 2;
    }
    forced
}

// Unknown at each gate of the set.
pub(crate) fn forced_unknown(set: &[usize]) -> InlineList<Forced<Doubtful>, 8>
    requires { length set.now ≤ 8 }
    ensures { listed result ≡ forced_unknown set.now }
{
    let value = Doubtful::Unknown;
    let mut forced = InlineList::none(Forced { gate: 0, value });
    for gate in set {
        let _ = forced.push(Forced { gate: *gate, value });
    }
    forced
}
