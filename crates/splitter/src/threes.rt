// A clause handed on in threes.
ghost use Rattle.std.specs.Prelude.{◌≡◌, ◌+◌, ◌-◌, ◌≤◌, true, [], ◌∷◌, length, pos};
ghost use Rattle.solver.specs.Rows.{all_named, price};
ghost use Rattle.solver.specs.Meaning.{Added};
ghost use Rattle.splitter.specs.Chains.{Split};

use crate::below::add_taken;
use solver::Solver;

// Adds a clause of three literals, for which there is room.
fn add_three<S: Solver>(below: &mut S, x: i32, y: i32, z: i32)
    requires sound { S.Solver.sound below.old }
    requires named { all_named (S.Solver.meaning below.old).vars (x ∷ (y ∷ (z ∷ []))) ≡ true }
    requires room { 1 ≤ (S.Solver.meaning below.old).room }
    ensures sound { S.Solver.sound below.new }
    ensures added { Added (S.Solver.meaning below.old) (x ∷ (y ∷ (z ∷ []))) (S.Solver.meaning below.new) }
{
    add_taken(below, &[x, y, z]);
}

// The literal of a variable.
fn literal(variable: usize) -> i32
    requires { variable ≤ 2147483647 }
    ensures { result ≡ pos variable }
{
    variable as i32
}

// Adds a clause of four literals or more in threes, its fresh variables being those after last.
fn add_chain<S: Solver>(below: &mut S, clause: &[i32], last: usize)
    requires sound { S.Solver.sound below.old }
    requires long { 4 ≤ length clause.now }
    requires named { all_named last clause.now ≡ true }
    requires fresh { last + (length clause.now - 3) ≤ (S.Solver.meaning below.old).vars }
    requires room { length clause.now - 2 ≤ (S.Solver.meaning below.old).room }
    ensures sound { S.Solver.sound below.new }
    ensures split { Split (S.Solver.meaning below.old) clause.now last (S.Solver.meaning below.new) }
{
    let len = clause.len();
    let mut head = clause[0];
    let mut fresh = last;
    let middle = &clause[1..len - 2];
    for next in middle {
        fresh += 1;
        let link = literal(fresh);
        add_three(below, head, *next, link);
        head = -link;
    }
    add_three(below, head, clause[len - 2], clause[len - 1]);
}

// Adds a clause in threes, its fresh variables being those after last; a clause of up to three literals goes as it is.
pub fn add_in_threes<S: Solver>(below: &mut S, clause: &[i32], last: usize)
    requires sound { S.Solver.sound below.old }
    requires named { all_named last clause.now ≡ true }
    requires fresh { last + (length clause.now - 3) ≤ (S.Solver.meaning below.old).vars }
    requires room { price (length clause.now) ≤ (S.Solver.meaning below.old).room }
    ensures sound { S.Solver.sound below.new }
    ensures split { Split (S.Solver.meaning below.old) clause.now last (S.Solver.meaning below.new) }
{
    if clause.len() <= 3 {
        add_taken(below, clause);
    } else {
        add_chain(below, clause, last);
    }
}
