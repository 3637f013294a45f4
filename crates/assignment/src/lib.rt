// Partial assignments: the value of a literal, and what an assignment says of clauses. The proofs on trails and stored clauses stand here too.
#![tactic(auto)]

// The value of a literal under a partial assignment.
#[derive(Clone, Copy)]
pub enum Value {
    True,
    False,
    Unset,
}

// What an assignment says of clauses: all have a true literal; one has only false ones; one has a single literal that is not false, which is thus forced; a literal of one is open.
#[derive(Clone, Copy)]
pub enum Status {
    Satisfied,
    Conflict,
    Forced(i32),
    Open(i32),
}

// What was found, and at which clause.
#[derive(Clone, Copy)]
pub struct Finding {
    pub status: Status,
    pub at: usize,
}
