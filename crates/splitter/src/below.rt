// Calls that the solver below takes.
ghost use Rattle.std.specs.Prelude.{◌≡◌, None};
ghost use Rattle.solver.specs.Meaning.{Begun, Added, Solved};
ghost use Rattle.solver.specs.Refusals.{begin_refusal, add_refusal, solve_refusal};

use solver::Solver;

pub fn begin_taken<S: Solver>(below: &mut S, vars: usize)
    requires sound { S.Solver.sound below.old }
    requires taken { None ≡ begin_refusal (S.Solver.meaning below.old) vars }
    ensures sound { S.Solver.sound below.new }
    ensures begun { Begun (S.Solver.meaning below.old) vars (S.Solver.meaning below.new) }
{
    below.begin(vars).unwrap();
}

pub fn add_taken<S: Solver>(below: &mut S, clause: &[i32])
    requires sound { S.Solver.sound below.old }
    requires taken { None ≡ add_refusal (S.Solver.meaning below.old) clause.now }
    ensures sound { S.Solver.sound below.new }
    ensures added { Added (S.Solver.meaning below.old) clause.now (S.Solver.meaning below.new) }
{
    below.add(clause).unwrap();
}

pub fn solve_taken<S: Solver>(below: &mut S, assumed: &[i32]) -> bool
    requires sound { S.Solver.sound below.old }
    requires taken { None ≡ solve_refusal (S.Solver.meaning below.old) assumed.now }
    ensures sound { S.Solver.sound below.new }
    ensures solved { Solved (S.Solver.meaning below.old) assumed.now result (S.Solver.meaning below.new) }
{
    below.solve(assumed).unwrap()
}
