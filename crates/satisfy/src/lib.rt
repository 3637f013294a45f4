// How a client uses a solver, proved over every solver: clauses go in, a question is asked, and the row shown is read.
#![tactic(auto)]

ghost use Rattle.std.specs.Prelude.{◌≡◌, ◌+◌, ◌^◌, ◌<◌, true, IfOk, MatchResult};
ghost use Rattle.solver.specs.Refusals.{refusal};
ghost use Rattle.satisfy.specs.Clauses.{Narrowed, Partly, adds_refusal};
ghost use Rattle.satisfy.specs.Questions.{read_at, Read, Satisfied, satisfy_refusal};

use solver::{Solver, SolverFault};

// Adds clauses in their order, up to the first that is refused.
pub fn add_all<S: Solver>(solver: &mut S, clauses: &[&[i32]]) -> Result<(), SolverFault>
    requires { S.sound solver.old }
    ensures refused { refusal result ≡ adds_refusal (S.meaning solver.old).sizes (S.meaning solver.old).vars (S.meaning solver.old).room clauses.now }
    ensures cases { MatchResult result (λ _. Narrowed (S.meaning solver.old) clauses.now (S.meaning solver.new)) (λ _. Partly (S.meaning solver.old) clauses.now (S.meaning solver.new)) }
    ensures sound { S.sound solver.new }
{
    for clause in clauses {
        solver.add(clause)?;
    }
    Ok(())
}

// The value of variable i + 1, or what was there.
fn value_or<S: Solver>(solver: &S, i: usize, old: bool) -> bool
    requires sound { S.sound solver.now }
    requires fits { i + 1 < 2 ^ 64 }
    ensures { result ≡ read_at (S.meaning solver.now).vars (S.meaning solver.now).shown i old }
{
    solver.value(i + 1).unwrap_or(old)
}

// Reads the row shown: place i gets the value of variable i + 1.
pub fn read_row<S: Solver>(solver: &S, row: &mut [bool])
    requires { S.sound solver.now }
    ensures { Read (S.meaning solver.now).vars (S.meaning solver.now).shown row.old row.new }
{
    for (i, value) in row.iter_mut().enumerate() {
        *value = value_or(solver, i, *value);
    }
}

// Whether some row of so many variables has each clause and each assumed literal true; if so, its values are read.
pub fn satisfy<S: Solver>(
    solver: &mut S,
    vars: usize,
    clauses: &[&[i32]],
    assumed: &[i32],
    row: &mut [bool],
) -> Result<bool, SolverFault>
    requires { S.sound solver.old }
    ensures refused { refusal result ≡ satisfy_refusal (S.meaning solver.old).sizes vars clauses.now assumed.now }
    ensures cases { MatchResult result (λ answer. Satisfied vars clauses.now assumed.now row.old answer row.new) (λ _. row.new ≡ row.old) }
    ensures sound { S.sound solver.new }
{
    solver.begin(vars)?;
    add_all(solver, clauses)?;
    let answer = solver.solve(assumed)?;
    if answer {
        read_row(solver, row);
    }
    Ok(answer)
}

// Whether two solvers give the same answer: any two do that take the question.
pub fn answer_alike<A: Solver, B: Solver>(
    first: &mut A,
    second: &mut B,
    vars: usize,
    clauses: &[&[i32]],
    assumed: &[i32],
) -> Result<bool, SolverFault>
    requires first { A.Solver.sound first.old }
    requires second { B.Solver.sound second.old }
    ensures { IfOk result (λ alike. alike ≡ true) }
{
    let one = satisfy(first, vars, clauses, assumed, &mut [])?;
    let other = satisfy(second, vars, clauses, assumed, &mut [])?;
    Ok(one == other)
}
