// A solver that counts through the rows: slow, short, and of another make than a search.
#![tactic(auto)]

ghost use Rattle.std.specs.Prelude.{◌≡◌, ◌+◌, ◌≤◌, true, length};
ghost use Rattle.std.specs.List.{list_all};
ghost use Rattle.inline_list.specs.Listed.{listed};
ghost use Rattle.row_walker.specs.Masks.{within};

mod calls;
mod changes;
mod clause;
mod walk;

use clause::Clause;
use inline_list::InlineList;

// The room of a walker without clauses; each clause costs at least 1.
const FULL: usize = 256;

// A row is shown by its number.
#[derive(Drop)]
pub struct RowWalker {
    vars: usize,
    room: usize,
    clauses: InlineList<Clause, FULL>,
    shown: Option<u32>,
    ghost in_range: { vars ≤ 24 },
    ghost charged: { length (listed clauses) + room ≤ 256 },
    ghost inside: { list_all (within vars) (listed clauses) ≡ true },
}
