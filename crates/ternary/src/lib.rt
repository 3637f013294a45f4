// A solver that searches: clauses of up to three literals, tried on a trail of decisions, all in a slice that is lent to it.
#![tactic(auto)]

mod assigned;
mod calls;
mod occurrences;
mod search;
mod status;
mod step;
mod storage;
mod trail;

// The first count clauses are in use, each in three places; values has a number for each variable, trail the literals made true and decisions
// which of them are open; occurrences has lists of clauses by variable, where there is room for them.
// At most limit variables and limit clauses may be in use.
// Kept: one struct for what a search keeps and what it changes, so each step says that the clauses stay; were it two structs, one call
// would borrow both, and no proof rule covers that.
#[derive(Drop)]
pub struct TernarySearch<'a> {
    clauses: &'a mut [i32],
    values: &'a mut [i32],
    trail: &'a mut [i32],
    decisions: &'a mut [i32],
    occurrences: &'a mut [i32],
    limit: usize,
    vars: usize,
    count: usize,
    room: usize,
    // Kept: the values lie in lent memory, and say which row is shown only while this is set.
    found: bool,
}
