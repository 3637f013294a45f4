// What an accepted call changes in a row walker.
ghost use Rattle.std.specs.Prelude.{◌≡◌, ◌+◌, ◌≤◌, ◌++◌, ◌∷◌, [], true, is_some, None};
ghost use Rattle.inline_list.specs.Listed.{listed};
ghost use Rattle.row_walker.specs.Masks.{within};

use crate::RowWalker;
use crate::clause::Clause;

impl RowWalker {
    // Puts one clause more in use, for a price.
    pub(crate) fn keep(&mut self, clause: Clause, price: usize)
        requires paid { (1 ≤ price) × (price ≤ self.old.room) }
        requires inside { within self.old.vars clause ≡ true }
        ensures vars { self.new.vars ≡ self.old.vars }
        ensures clauses { listed self.new.clauses ≡ listed self.old.clauses ++ clause ∷ [] }
        ensures room { self.new.room + price ≡ self.old.room }
        ensures shown { self.new.shown ≡ None }
    {
        self.room -= price;
        self.shown = None;
        let _ = self.clauses.push(clause);
    }

    // Shows the row found, if any, and says whether there is one.
    pub(crate) fn show(&mut self, found: Option<u32>) -> bool
        ensures answer { result ≡ is_some found }
        ensures shown { self.new.shown ≡ found }
        ensures vars { self.new.vars ≡ self.old.vars }
        ensures clauses { self.new.clauses ≡ self.old.clauses }
        ensures room { self.new.room ≡ self.old.room }
    {
        self.shown = found;
        found.is_some()
    }
}
