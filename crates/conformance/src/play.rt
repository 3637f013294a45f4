// Plays a script to a solver, beside a truth table.
use crate::answer::Answer;
use crate::model::Model;
use crate::script::{Call, Script};
use crate::tally::Tally;
use solver::{Solver, SolverFault};

// Kept: the solver, the table and the tally as three parameters; in one struct the solver's soundness would be asked of each method as here.

// The number of the row shown, read variable by variable.
fn row_shown<S: Solver>(solver: &S, vars: usize) -> Option<usize>
    requires { S.Solver.sound solver.now }
{
    let mut row = 0;
    for variable in 1..=vars.min(10) {
        if solver.value(variable).ok()? {
            row |= 1 << (variable - 1);
        }
    }
    Some(row)
}

// Solves, and looks at the row that is then shown.
fn solve<S: Solver>(solver: &mut S, model: &mut Model, assumed: &[i32], tally: &mut Tally)
    requires { S.Solver.sound solver.old }
    ensures { S.Solver.sound solver.new }
{
    let told = solver.solve(assumed);
    let expected = model.solve(assumed);
    tally.count(Answer::solved(told), Answer::solved(expected));
    tally.fix(Answer::solved(told));
    if let Ok(yes) = told {
        let row = if yes {
            row_shown(solver, model.vars())
        } else {
            None
        };
        if !model.show(row, assumed) || row.is_some() != yes {
            tally.mismatch();
        }
    }
}

fn begin<S: Solver>(solver: &mut S, model: &mut Model, vars: usize, tally: &mut Tally)
    requires { S.Solver.sound solver.old }
    ensures { S.Solver.sound solver.new }
{
    let told = Answer::done(solver.begin(vars));
    tally.count(told, Answer::done(model.begin(vars)));
    tally.fix(told);
}

// Adds, unless the truth table has no room for what the solver may have room for.
fn add<S: Solver>(solver: &mut S, model: &mut Model, clause: &[i32], tally: &mut Tally)
    requires { S.Solver.sound solver.old }
    ensures { S.Solver.sound solver.new }
{
    let expected = Answer::done(model.add(clause));
    if expected != Answer::Refused(SolverFault::NoRoom) || model.full_room() == solver.full_room() {
        let told = Answer::done(solver.add(clause));
        tally.count(told, expected);
        tally.fix(told);
    }
}

// Plays so many calls to a solver, beside a truth table of its sizes or of smaller ones.
pub fn play<S: Solver>(solver: &mut S, mut model: Model, mut script: Script, calls: u32) -> Tally
    requires { S.Solver.sound solver.old }
    ensures { S.Solver.sound solver.new }
{
    let mut tally = Tally::default();
    let _ = solver.begin(0);
    for _ in 0..calls {
        match script.next() {
            Call::Begin(vars) => begin(solver, &mut model, vars, &mut tally),
            Call::Add(clause) => add(solver, &mut model, clause.as_slice(), &mut tally),
            Call::Solve(assumed) => solve(solver, &mut model, assumed.as_slice(), &mut tally),
            Call::Value(variable) => tally.count(
                Answer::value(solver.value(variable)),
                Answer::value(model.value(variable)),
            ),
        }
    }
    tally
}
