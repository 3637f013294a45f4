// A solver filled with the formula and the clauses that bar the sets given before.
ghost use Rattle.std.specs.Prelude.{◌≡◌, ◌≤◌};
ghost use Rattle.std.specs.List.{AllByRecursion};
ghost use Rattle.circuit.specs.Held.{circuit_of};
ghost use Rattle.testlog.specs.Held.{tests_of};
ghost use Rattle.solver.specs.Meaning.{Begun};
ghost use Rattle.cnf_theory.specs.Variables.{variables};
ghost use Rattle.cnf_theory.specs.Sizes.{prices, longest};
ghost use Rattle.answers.specs.Loaded.{Loaded};
ghost use Rattle.candidates.specs.Added.{added};
ghost use Rattle.candidates.specs.Enough.{enough};
ghost use Rattle.candidates.specs.CandidateLaws.{Given};
ghost use Rattle.gate_set.specs.Held.{sets_of};
ghost use Rattle.lister.specs.Asked.{GateNumbers};

use crate::bars::write_bars;
use crate::scale::Scale;
use cnf::Problem;
use gate_set::GateSet;
use solver::Solver;

// Begins a solver that has the capacity.
fn begin_with<S: Solver>(solver: &mut S, variables: usize)
    requires sound { S.Solver.sound solver.old }
    requires capacity { variables ≤ (S.Solver.meaning solver.old).sizes.capacity }
    ensures sound { S.Solver.sound solver.new }
    ensures begun { Begun (S.Solver.meaning solver.old) variables (S.Solver.meaning solver.new) }
{
    let _ = solver.begin(variables);
}

// Begins a solver that is large enough, and hands it the formula and a clause for each set given.
pub(crate) fn fill<S: Solver>(solver: &mut S, problem: &Problem, given: &[GateSet])
    requires sound { S.Solver.sound solver.old }
    requires fits { Given (circuit_of problem.now.circuit.now) (tests_of problem.now.tests.now) (sets_of given.now) }
    requires capacity { variables (circuit_of problem.now.circuit.now) (tests_of problem.now.tests.now) problem.now.bound.value ≤ (S.Solver.meaning solver.old).sizes.capacity }
    requires width { longest (added (circuit_of problem.now.circuit.now) (tests_of problem.now.tests.now) problem.now.bound.value (sets_of given.now)) ≤ (S.Solver.meaning solver.old).sizes.width }
    requires room { prices (added (circuit_of problem.now.circuit.now) (tests_of problem.now.tests.now) problem.now.bound.value (sets_of given.now)) ≤ (S.Solver.meaning solver.old).sizes.full }
    ensures sound { S.Solver.sound solver.new }
    ensures loaded { Loaded (S.Solver.meaning solver.old).sizes (variables (circuit_of problem.now.circuit.now) (tests_of problem.now.tests.now) problem.now.bound.value) (added (circuit_of problem.now.circuit.now) (tests_of problem.now.tests.now) problem.now.bound.value (sets_of given.now)) (S.Solver.meaning solver.new) }
{
    begin_with(solver, problem.variable_count());
    problem.write_formula(solver);
    write_bars(solver, given);
}

// Whether the solver has the variables, the width and the room for what is added.
pub(crate) fn is_enough<S: Solver>(solver: &S, problem: &Problem, given: &[GateSet]) -> bool
    requires numbers { AllByRecursion GateNumbers (sets_of given.now) }
    ensures { result ≡ enough (circuit_of problem.now.circuit.now) (tests_of problem.now.tests.now) problem.now.bound.value (sets_of given.now) (S.Solver.meaning solver.now).sizes }
{
    if problem.variable_count() > solver.capacity() {
        return false;
    }
    let mut scale = Scale {
        width: solver.width(),
        room: Some(solver.full_room()),
    };
    problem.write_formula(&mut scale);
    write_bars(&mut scale, given);
    scale.room.is_some()
}
