// The clauses in use, looked at under the values so far.
ghost use Rattle.std.specs.Prelude.{◌*◌, ◌≤◌, length};
ghost use Rattle.assignment.specs.Stored.{Ranged};

use crate::status::{Pace, first_unsatisfied, with_literal};
use assignment::{Finding, Status};

// The first count clauses, each in three places, and a number for each variable.
#[derive(Clone, Copy)]
pub struct Assigned<'a> {
    pub(crate) places: &'a [i32],
    pub(crate) count: usize,
    pub(crate) values: &'a [i32],
    ghost room: { 3 * count ≤ length places.now },
    ghost ranged: { Ranged places.now count (length values.now) },
}

impl<'a> Assigned<'a> {
    ghost use Rattle.std.specs.Prelude.{◌≡◌, ◌<◌, ◌≤◌, true, IfSome};
    ghost use Rattle.assignment.specs.Stored.{stored_true, StoredTrue, Between};
    ghost use Rattle.assignment.specs.Statuses.{Tells, Hinted};

    // What the clause k tells.
    fn clause_status(&self, k: usize) -> Status
        requires { k < self.now.count }
        ensures { Tells self.now.values.now (λ row. stored_true row self.now.places.now k ≡ true) result }
    {
        let at = 3 * k;
        let one = with_literal(self.values, Status::Conflict, self.places[at]);
        let two = with_literal(self.values, one, self.places[at + 1]);
        with_literal(self.values, two, self.places[at + 2])
    }

    // What the clause that a place is in tells, if it is in use, and is a conflict or forces a literal.
    pub(crate) fn hinted(&self, place: usize) -> Option<Status>
        ensures { IfSome result (Hinted self.now.values.now (λ row. StoredTrue row self.now.places.now self.now.count)) }
    {
        let k = place / 3;
        if k >= self.count {
            return None;
        }
        match self.clause_status(k) {
            Status::Conflict => Some(Status::Conflict),
            Status::Forced(literal) => Some(Status::Forced(literal)),
            _ => None,
        }
    }

    // What the clauses from .. to tell; an open literal is one of the first clause with no true literal,
    // and a quick scan ends there.
    fn scan_range(&self, pace: Pace, from: usize, to: usize) -> Finding
        requires { to ≤ self.now.count }
        ensures { Tells self.now.values.now (λ row. Between row self.now.places.now from to) result.status }
    {
        let mut open = None;
        // Kept: a chain would hand the open literal from clause to clause and end early, as `try_fold` does, with an Err for an end that is no fault.
        for k in from..to {
            match self.clause_status(k) {
                Status::Satisfied => {}
                Status::Open(literal) if pace == Pace::Thorough => open = open.or(Some(literal)),
                status => return Finding { status, at: k },
            }
        }
        match open {
            None => Finding {
                status: Status::Satisfied,
                at: to,
            },
            Some(literal) => Finding {
                status: Status::Open(literal),
                at: to,
            },
        }
    }

    // What the clauses tell; from is where to begin, a hint.
    pub(crate) fn scan(&self, pace: Pace, from: usize) -> Finding
        ensures { Tells self.now.values.now (λ row. StoredTrue row self.now.places.now self.now.count) result.status }
    {
        let mid = from.min(self.count);
        let late = self.scan_range(pace, mid, self.count);
        match late.status {
            Status::Satisfied => first_unsatisfied(self.scan_range(pace, 0, mid), late),
            Status::Open(_) if pace == Pace::Thorough => first_unsatisfied(
                self.scan_range(pace, 0, mid),
                late,
            ),
            _ => late,
        }
    }
}
