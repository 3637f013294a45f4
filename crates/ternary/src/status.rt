// What a search finds when it looks at literals under the values so far.
ghost use Rattle.std.specs.Prelude.{◌≡◌, ◌≤◌, Bool, true, ◌||◌, length, unsigned_abs};
ghost use Rattle.solver.specs.Rows.{Row, all_true, all_named};
ghost use Rattle.assignment.specs.Stored.{place_true};
ghost use Rattle.assignment.specs.Statuses.{Valued, Tells, first_finding};

use assignment::{Finding, Status, Value};

// How far a scan goes on: to the first clause with an open literal, or over all clauses.
#[derive(Clone, Copy, PartialEq, Eq)]
pub enum Pace {
    Quick,
    Thorough,
}

// The value of a literal in a place; 0 is no literal, and false.
pub fn value_of(values: &[i32], literal: i32) -> Value
    requires { unsigned_abs literal ≤ length values.now }
    ensures { Valued values.now literal result }
{
    let v = literal.unsigned_abs() as usize;
    if v == 0 {
        return Value::False;
    }
    let w = values[v - 1];
    if w == 0 {
        return Value::Unset;
    }
    if (w > 0) == (literal > 0) {
        Value::True
    } else {
        Value::False
    }
}

// What a clause tells, given what it told without this literal.
pub fn with_literal(values: &[i32], before: Status, literal: i32) -> Status
    requires { unsigned_abs literal ≤ length values.now }
    ensures { (f : Row → Bool) → Tells values.now (λ row. f row ≡ true) before → Tells values.now (λ row. (f row || place_true row literal) ≡ true) result }
{
    match value_of(values, literal) {
        Value::True => Status::Satisfied,
        Value::False => before,
        Value::Unset => match before {
            Status::Satisfied => Status::Satisfied,
            Status::Conflict => Status::Forced(literal),
            Status::Forced(_) => Status::Open(literal),
            Status::Open(_) => Status::Open(literal),
        },
    }
}

// The first of two findings, or the second if the first is that all is satisfied.
pub fn first_unsatisfied(early: Finding, late: Finding) -> Finding
    ensures { result ≡ first_finding early late }
{
    match early.status {
        Status::Satisfied => late,
        _ => early,
    }
}

// What the assumed literals tell.
pub fn assumed_status(assumed: &[i32], values: &[i32]) -> Status
    requires { all_named (length values.now) assumed.now ≡ true }
    ensures { Tells values.now (λ row. all_true row assumed.now ≡ true) result }
{
    for literal in assumed {
        match value_of(values, *literal) {
            Value::True => {}
            Value::False => return Status::Conflict,
            Value::Unset => return Status::Forced(*literal),
        }
    }
    Status::Satisfied
}
