// The next set of a list, by what a solver answers.
ghost use Rattle.std.specs.Prelude.{◌≡◌, ℕ, suc, ◌≤◌, false, length, IfOk, OnErr, OnOk};
ghost use Rattle.std.specs.Option.{option_map};
ghost use Rattle.std.specs.Result.{result_err};
ghost use Rattle.circuit.specs.Held.{circuit_of};
ghost use Rattle.testlog.specs.Held.{tests_of};
ghost use Rattle.diagnosis.specs.Marked.{marked};
ghost use Rattle.solver.specs.Rows.{Row};
ghost use Rattle.solver.specs.Meaning.{Kept};
ghost use Rattle.cnf_theory.specs.Variables.{count_variable, variables};
ghost use Rattle.answers.specs.Loaded.{Loaded};
ghost use Rattle.candidates.specs.Added.{added};
ghost use Rattle.gate_set.specs.Held.{set_of, sets_of};
ghost use Rattle.lister.specs.Asked.{list_refusal};
ghost use Rattle.lister.specs.NextSet.{FirstOf, NextIs};
ghost use Rattle.lister.specs.Explained.{set_in, ReadingsOf};

use crate::ask::{fewest, last_count};
use crate::asked::is_fitting;
use crate::explanation::Explanation;
use crate::fault::ListFault;
use crate::fill::{fill, is_enough};
use crate::lowest::lowest;
use crate::readings::read_tests;
use cnf::Problem;
use gate_set::GateSet;
use solver::Solver;

// The lowest set of the fewest marks, of a solver whose counts say how many are marked.
fn first<S: Solver>(solver: &mut S, gates: usize, bound: usize) -> Option<GateSet>
    requires sound { S.Solver.sound solver.old }
    requires sizes { (1 ≤ gates) × ((gates ≤ 256) × (bound ≤ 6)) }
    requires vars { (count_variable gates bound gates (suc bound) ≤ (S.Solver.meaning solver.old).vars) × (gates ≤ (S.Solver.meaning solver.old).vars) }
    requires counts { (k : ℕ) (row : Row) → k ≤ bound → (S.Solver.meaning solver.old).allowed row → row (count_variable gates bound gates (suc k)) ≡ false → length (marked row gates) ≤ k }
    ensures sound { S.Solver.sound solver.new }
    ensures kept { Kept (S.Solver.meaning solver.old) (S.Solver.meaning solver.new) }
    ensures first { FirstOf (S.Solver.meaning solver.old) gates bound (option_map set_of result) (S.Solver.meaning solver.new) }
{
    let k = fewest(solver, gates, bound)?;
    let count = last_count(gates, bound, k);
    Some(lowest(solver, gates, count, k))
}

// The first set of at most so many gates that explains every test and contains no set given; or none, where there is no such set.
// It comes with readings: for each test values forced on the set that bring out what was measured.
// The solver then holds the formula and a clause for each set given, and shows a row that marks just the set, or none.
pub fn next_set<S: Solver>(
    solver: &mut S,
    problem: &Problem,
    given: &[GateSet],
) -> Result<Option<Explanation>, ListFault>
    requires { S.Solver.sound solver.old }
    ensures refused { result_err result ≡ list_refusal (circuit_of problem.now.circuit.now) (tests_of problem.now.tests.now) problem.now.bound.value (sets_of given.now) (S.Solver.meaning solver.old).sizes }
    ensures untouched { OnErr result (solver.new ≡ solver.old) }
    ensures loaded { OnOk result (Loaded (S.Solver.meaning solver.old).sizes (variables (circuit_of problem.now.circuit.now) (tests_of problem.now.tests.now) problem.now.bound.value) (added (circuit_of problem.now.circuit.now) (tests_of problem.now.tests.now) problem.now.bound.value (sets_of given.now)) (S.Solver.meaning solver.new)) }
    ensures next { IfOk result (λ next. NextIs (circuit_of problem.now.circuit.now) (tests_of problem.now.tests.now) problem.now.bound.value (sets_of given.now) (set_in next) (S.Solver.meaning solver.new).shown) }
    ensures readings { IfOk result (λ next. ReadingsOf (circuit_of problem.now.circuit.now) (tests_of problem.now.tests.now) next) }
    ensures sound { S.Solver.sound solver.new }
{
    if !is_fitting(problem, given) {
        return Err(ListFault::Unfit);
    }
    if !is_enough(solver, problem, given) {
        return Err(ListFault::SmallSolver);
    }
    fill(solver, problem, given);
    let Some(set) = first(solver, problem.circuit.gates().len(), problem.bound.value()) else {
        return Ok(None);
    };
    let readings = read_tests(solver, problem, &set);
    Ok(Some(Explanation { set, readings }))
}
