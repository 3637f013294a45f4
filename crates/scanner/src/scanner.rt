// The words and signs of a line, one after another.
ghost use Rattle.std.specs.Prelude.{◌≡◌, ◌≤◌, true, length};
ghost use Rattle.std.specs.List.{list_all};
ghost use Rattle.netlist_text.specs.Words.{line_byte};

use crate::bytes::space_len;
use crate::token::{Token, token_at};

// A line whose bytes may all stand in one, with the place that its reader has come to.
#[derive(Clone, Copy)]
pub struct Scanner<'a> {
    pub(crate) line: &'a [u8],
    pub(crate) at: usize,
    ghost clean: { list_all line_byte line.now ≡ true },
    ghost within: { at ≤ length line.now },
}

impl<'a> Scanner<'a> {
    ghost use Rattle.scanner.specs.Scanned.{Stepped};

    // The next word or sign, if there is one; the line stays, and a sign has its place in it.
    fn next_token(&mut self) -> Option<Token<'a>>
        ensures { Stepped self.old self.new result }
    {
        let line = self.line;
        let front = self.at + space_len(&line[self.at..]);
        let (token, behind) = token_at(line, front)?;
        self.at = behind;
        Some(token)
    }
}

impl<'a> Iterator for Scanner<'a> {
    ghost use Rattle.std.specs.Iterator.{YieldsFirstBy, item_count};
    ghost use Rattle.scanner.specs.Scanned.{ahead, lexeme_of};

    type Item = Token<'a>;

    ghost next_gives = { YieldsFirstBy lexeme_of ahead };

    ghost remaining = { item_count ahead };

    fn next(&mut self) -> Option<Token<'a>> {
        self.next_token()
    }
}
