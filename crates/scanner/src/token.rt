// Words and signs of a line, and what is wrong with its bytes.
ghost use Rattle.std.specs.Prelude.{◌≡◌, ◌==◌, true, drop};
ghost use Rattle.std.specs.List.{list_all, prefix_len};
ghost use Rattle.netlist_text.specs.Words.{line_byte};
ghost use Rattle.scanner.specs.Scanned.{Scanned};

use crate::bytes::word_len;

// A word is a part of the text; a sign has its place in the line, from 0.
#[derive(Clone, Copy)]
pub enum Token<'a> {
    Word(&'a [u8]),
    Open(usize),
    Close(usize),
    Comma(usize),
    Equals(usize),
}

// A byte that may not stand in a line, by its column from 1.
#[derive(Clone, Copy, PartialEq, Eq, Debug)]
pub struct ScanFault {
    pub column: usize,
}

// The word or sign at a place of a line, where no space is, and the place behind it.
pub(crate) fn token_at(line: &[u8], at: usize) -> Option<(Token<'_>, usize)>
    requires clean { list_all line_byte line.now ≡ true }
    requires begun { prefix_len (λ b. b == 32) (drop at line.now) ≡ 0 }
    ensures { Scanned line.now at result }
{
    match *line.get(at)? {
        b'(' => Some((Token::Open(at), at + 1)),
        b')' => Some((Token::Close(at), at + 1)),
        b',' => Some((Token::Comma(at), at + 1)),
        b'=' => Some((Token::Equals(at), at + 1)),
        _ => {
            let rest = &line[at..];
            let len = word_len(rest);
            Some((Token::Word(&rest[..len]), at + len))
        }
    }
}
