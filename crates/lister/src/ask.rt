// Questions put to a solver that knows the variables.
ghost use Rattle.std.specs.Prelude.{◌≡◌, suc, ◌≤◌, true};
ghost use Rattle.solver.specs.Rows.{all_named};
ghost use Rattle.solver.specs.Meaning.{Solved, Kept};
ghost use Rattle.cnf_theory.specs.Variables.{count_variable};
ghost use Rattle.answers.specs.Loaded.{OffAnswer, FewestOf};

use crate::literal::literal;
use solver::Solver;

// Whether an allowed row has each assumed literal true.
pub(crate) fn ask<S: Solver>(solver: &mut S, assumed: &[i32]) -> bool
    requires sound { S.Solver.sound solver.old }
    requires named { all_named (S.Solver.meaning solver.old).vars assumed.now ≡ true }
    ensures sound { S.Solver.sound solver.new }
    ensures solved { Solved (S.Solver.meaning solver.old) assumed.now result (S.Solver.meaning solver.new) }
{
    solver.solve(assumed).unwrap_or(false)
}

// Whether an allowed row has the variable off.
fn ask_off<S: Solver>(solver: &mut S, variable: usize) -> bool
    requires sound { S.Solver.sound solver.old }
    requires named { (1 ≤ variable) × ((variable ≤ 100000) × (variable ≤ (S.Solver.meaning solver.old).vars)) }
    ensures sound { S.Solver.sound solver.new }
    ensures kept { Kept (S.Solver.meaning solver.old) (S.Solver.meaning solver.new) }
    ensures answer { OffAnswer (S.Solver.meaning solver.old) variable result (S.Solver.meaning solver.new).shown }
{
    ask(solver, &[literal(variable, false)])
}

// The variable that tells whether more than k gates are marked.
pub(crate) fn last_count(gates: usize, bound: usize, k: usize) -> usize
    requires { (1 ≤ gates) × ((gates ≤ 256) × ((bound ≤ 6) × (k ≤ bound))) }
    ensures value { result ≡ count_variable gates bound gates (suc k) }
    ensures small { (1 ≤ result) × (result ≤ 100000) }
{
    gates + ((gates - 1) * (bound + 1) + (k + 1))
}

// The fewest marks that an allowed row has, if one has no more than the bound.
// Kept: a loop, since each step changes the solver, which a closure would capture.
pub(crate) fn fewest<S: Solver>(solver: &mut S, gates: usize, bound: usize) -> Option<usize>
    requires sound { S.Solver.sound solver.old }
    requires sizes { (1 ≤ gates) × ((gates ≤ 256) × (bound ≤ 6)) }
    requires vars { count_variable gates bound gates (suc bound) ≤ (S.Solver.meaning solver.old).vars }
    ensures sound { S.Solver.sound solver.new }
    ensures kept { Kept (S.Solver.meaning solver.old) (S.Solver.meaning solver.new) }
    ensures fewest { FewestOf (S.Solver.meaning solver.old) gates bound result (S.Solver.meaning solver.new).shown }
{
    for k in 0..=bound {
        if ask_off(solver, last_count(gates, bound, k)) {
            return Some(k);
        }
    }
    None
}
