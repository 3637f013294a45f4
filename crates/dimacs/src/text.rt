// Lines, put together word by word in room for any of them.
ghost use Rattle.std.specs.Prelude.{◌≡◌, ◌≤◌, [], ◌∷◌, ◌++◌, length};
ghost use Rattle.inline_list.specs.Listed.{listed};
ghost use Rattle.cnf_theory.specs.Dimacs.{head_line as head_line_of};
ghost use Rattle.dimacs.specs.Texts.{Appended, words_of};

use arrayvec::ArrayString;
use inline_list::InlineList;
use itoa::{Buffer, Integer};

// No line has more bytes than this.
pub(crate) const LONGEST: usize = 128;

pub(crate) type Text = ArrayString<LONGEST>;

// A word at the end of a text, if there is room.
fn push(text: &mut Text, word: &str)
    ensures { Appended text.old word.now text.new }
{
    let _ = text.try_push_str(word);
}

// A number in decimal digits at the end of a text.
fn push_number<I: Integer>(text: &mut Text, number: I)
    ensures text { Appended text.old (I.text number) text.new }
    ensures short { length (I.text number) ≤ I.MAX_STR_LEN }
{
    push(text, Buffer::new().format(number));
}

// The first line.
pub(crate) fn head_line(variables: usize, clauses: usize) -> Text
    ensures { result.bytes ≡ head_line_of variables clauses }
{
    let mut text = Text::new();
    push(&mut text, "p cnf ");
    push_number(&mut text, variables);
    push(&mut text, " ");
    push_number(&mut text, clauses);
    push(&mut text, "\n");
    text
}

// The line of a clause.
pub(crate) fn clause_line(clause: &InlineList<i32, 9>) -> Text
    ensures { result.bytes ≡ words_of (listed clause.now) ++ 48 ∷ 10 ∷ [] }
{
    let mut text = Text::new();
    for literal in clause.as_slice() {
        push_number(&mut text, *literal);
        push(&mut text, " ");
    }
    push(&mut text, "0\n");
    text
}
