// One step of a search: what there is to do next.
ghost use Rattle.std.specs.Prelude.{◌≡◌, ◌≤◌, true};
ghost use Rattle.solver.specs.Rows.{all_named};
ghost use Rattle.assignment.specs.Statuses.{Tells};
ghost use Rattle.ternary.specs.Stands.{Sound};
ghost use Rattle.ternary.specs.Search.{Sought, values_of};

use crate::TernarySearch;
use crate::assigned::Assigned;
use crate::occurrences::Lists;
use crate::status::{Pace, assumed_status};
use assignment::{Finding, Status};

// Where to look first: the clause to begin with, and the first entry of the trail that is not followed yet.
#[derive(Clone, Copy, Default)]
pub struct Hints {
    pub from: usize,
    pub head: usize,
}

// What there is to do next, and where to go on from there.
#[derive(Clone, Copy)]
pub struct Next {
    pub status: Status,
    pub hints: Hints,
}

impl<'a> TernarySearch<'a> {
    // The clauses in use, under the values so far.
    fn assigned(&self) -> Assigned<'_>
        requires { Sound self.now }
        ensures places { result.places.now ≡ self.now.clauses.now }
        ensures count { result.count ≡ self.now.count }
        ensures values { result.values.now ≡ self.now.values.now }
    {
        Assigned {
            places: self.clauses,
            count: self.count,
            values: self.values,
        }
    }

    // What the assumed literals tell, or else the clauses, beginning with clause from.
    fn examine(&self, assumed: &[i32], pace: Pace, from: usize) -> Finding
        requires sound { Sound self.now }
        requires named { all_named self.now.vars assumed.now ≡ true }
        ensures { Tells (values_of self.now) (Sought self.now assumed.now) result.status }
    {
        match assumed_status(assumed, self.values) {
            Status::Satisfied => self.assigned().scan(pace, from),
            status => Finding { status, at: from },
        }
    }

    // What there is to do next, with so many entries on the trail: where the lists lead, or else what an examination of all clauses tells.
    pub(crate) fn next_step(&self, assumed: &[i32], pace: Pace, hints: Hints, len: usize) -> Next
        requires sound { Sound self.now }
        requires named { all_named self.now.vars assumed.now ≡ true }
        requires within { len ≤ self.now.limit }
        ensures { Tells (values_of self.now) (Sought self.now assumed.now) result.status }
    {
        let start = match pace {
            Pace::Quick => hints.head,
            Pace::Thorough => len,
        };
        let lists = Lists {
            entries: self.occurrences,
            vars: self.vars,
        };
        if let Some(near) = self.assigned().propagate(lists, &self.trail[..len], start) {
            return Next {
                status: near.status,
                hints: Hints {
                    from: hints.from,
                    head: near.at,
                },
            };
        }
        let far = self.examine(assumed, pace, hints.from);
        Next {
            status: far.status,
            hints: Hints {
                from: far.at,
                head: len,
            },
        }
    }
}
