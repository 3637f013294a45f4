// Lists of the clauses that name a variable. They are hints: each step checks the clause that they lead to.
ghost use Rattle.std.specs.Prelude.{◌≤◌, IfSome};
ghost use Rattle.assignment.specs.Stored.{StoredTrue};
ghost use Rattle.assignment.specs.Statuses.{Hinted};
ghost use Rattle.ternary.specs.Stands.{Sound};
ghost use Rattle.ternary.specs.Search.{Same};

use crate::TernarySearch;
use crate::assigned::Assigned;
use crate::status::Pace;
use assignment::{Finding, Status};

impl<'a> TernarySearch<'a> {
    // Makes the lists, if there is room: a first place for each variable, then a next place for each place of a clause.
    // With them a search may scan quickly.
    pub(crate) fn list_occurrences(&mut self) -> Pace
        requires { Sound self.old }
        ensures sound { Sound self.new }
        ensures same { Same self.old self.new }
    {
        let vars = self.vars;
        let places = 3 * self.count;
        if vars + places > self.occurrences.len() {
            return Pace::Thorough;
        }
        let first = &mut self.occurrences[..vars];
        first.fill(0);
        // Kept: the clauses are read while the lists are written, two lent fields of the search, and no proof rule lends both to a walk.
        for e in 0..places {
            let v = self.clauses[e].unsigned_abs() as usize;
            if 0 < v && v <= vars {
                self.occurrences[vars + e] = self.occurrences[v - 1];
                self.occurrences[v - 1] = (e + 1) as i32;
            }
        }
        Pace::Quick
    }
}

// The lists of so many variables.
#[derive(Clone, Copy)]
pub struct Lists<'a> {
    pub(crate) entries: &'a [i32],
    pub(crate) vars: usize,
}

impl<'a> Lists<'a> {
    // The place of a clause that the entry i leads to.
    fn place(self, i: usize) -> Option<usize> {
        let entry = self.entries.get(i)?;
        (entry.unsigned_abs() as usize).checked_sub(1)
    }

    // The entry behind a place.
    fn behind(self, place: usize) -> usize {
        self.vars.saturating_add(place)
    }
}

impl<'a> Assigned<'a> {
    // What the clauses on a variable's list tell, if one of them is a conflict or forces a literal.
    fn follow(&self, lists: Lists, variable: usize) -> Option<Status>
        requires { 1 ≤ variable }
        ensures { IfSome result (Hinted self.now.values.now (λ row. StoredTrue row self.now.places.now self.now.count)) }
    {
        let mut entry = variable - 1;
        for _turn in 0..self.count {
            let place = lists.place(entry)?;
            if let Some(status) = self.hinted(place) {
                return Some(status);
            }
            entry = lists.behind(place);
        }
        None
    }

    // What the lists of the entries of a trail from head on lead to, and at which entry.
    pub(crate) fn propagate(&self, lists: Lists, trail: &[i32], head: usize) -> Option<Finding>
        ensures { IfSome result (λ found. Hinted self.now.values.now (λ row. StoredTrue row self.now.places.now self.now.count) found.status) }
    {
        // Kept: `enumerate().skip(head)` would step over every entry before head at each call.
        for at in head..trail.len() {
            let variable = trail[at].unsigned_abs() as usize;
            if 0 < variable
                && let Some(status) = self.follow(lists, variable)
            {
                return Some(Finding { status, at });
            }
        }
        None
    }
}
