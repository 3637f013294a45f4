// A signal's name: at most 16 bytes of its own.
ghost use Rattle.std.specs.Prelude.{◌≡◌};
ghost use Rattle.netlist_text.specs.Netlists.{same_name};

use inline_list::{Full, InlineList};

#[derive(Clone, Copy)]
pub struct Name {
    bytes: InlineList<u8, 16>,
}

impl Name {
    ghost use Rattle.std.specs.Prelude.{◌≡◌, []};
    ghost use Rattle.scanner.specs.Named.{name_of};

    // No name yet.
    pub fn none() -> Name
        ensures { name_of result ≡ [] }
    {
        Name {
            bytes: InlineList::none(0),
        }
    }

    pub fn as_bytes(&self) -> &[u8]
        ensures { result.now ≡ name_of self.now }
    {
        self.bytes.as_slice()
    }
}

// The name that a word spells, unless it is too long for one.
impl<'a> TryFrom<&'a [u8]> for Name {
    ghost use Rattle.std.specs.Prelude.{◌≡◌};
    ghost use Rattle.scanner.specs.Named.{Spells};

    type Error = Full;

    ghost try_from_gives = { λ word r. Spells word.now r };

    fn try_from(word: &'a [u8]) -> Result<Name, Full> {
        let bytes = InlineList::of(word, 0)?;
        Ok(Name { bytes })
    }
}

// Whether two words name the same signal.
pub fn same_name(a: &[u8], b: &[u8]) -> bool
    ensures { result ≡ same_name a.now b.now }
{
    a == b
}
