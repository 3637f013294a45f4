// The values that the row shown forces on the gates of a set, a byte for each test.
ghost use Rattle.std.specs.Prelude.{◌≡◌, ℕ, ◌<◌, ◌≤◌, length, slice_index};
ghost use Rattle.std.specs.List.{AllByRecursion};
ghost use Rattle.circuit.specs.Held.{circuit_of};
ghost use Rattle.testlog.specs.Held.{tests_of};
ghost use Rattle.diagnosis.specs.Sets.{IsSet};
ghost use Rattle.diagnosis.specs.Readings.{reading};
ghost use Rattle.cnf_theory.specs.Variables.{base as base_of, forced_variable, variables};
ghost use Rattle.inline_list.specs.Listed.{listed};
ghost use Rattle.gate_set.specs.Held.{set_of};
ghost use Rattle.lister.specs.Readings.{told, Readable};

use cnf::Problem;
use gate_set::GateSet;
use inline_list::InlineList;
use solver::Solver;

// The value of a variable in the row shown.
fn shown_value<S: Solver>(solver: &S, variable: usize) -> bool
    requires sound { S.Solver.sound solver.now }
    requires named { (1 ≤ variable) × (variable ≤ (S.Solver.meaning solver.now).vars) }
    ensures { result ≡ told (S.Solver.meaning solver.now).shown variable }
{
    solver.value(variable).unwrap_or(false)
}

// The value forced on a gate in the test whose variables come after `base`.
fn forced_value<S: Solver>(solver: &S, base: usize, inputs: usize, gate: usize) -> bool
    requires sound { S.Solver.sound solver.now }
    requires sizes { (base ≤ 100000) × (inputs ≤ 64) }
    requires reads { Readable (S.Solver.meaning solver.now).vars base inputs gate }
    ensures { result ≡ told (S.Solver.meaning solver.now).shown (forced_variable base inputs gate) }
{
    shown_value(solver, base + (inputs + ((gate - 1) * 3 + 2)))
}

// The byte of one test: bit i, counted from 0, is the value forced on the set's gate i.
fn read_test<S: Solver>(solver: &S, base: usize, inputs: usize, gates: &[usize]) -> u8
    requires sound { S.Solver.sound solver.now }
    requires sizes { (base ≤ 100000) × ((inputs ≤ 64) × (length gates.now ≤ 6)) }
    requires reads { AllByRecursion (Readable (S.Solver.meaning solver.now).vars base inputs) gates.now }
    ensures { result ≡ reading gates.now (λ g. told (S.Solver.meaning solver.now).shown (forced_variable base inputs g)) }
{
    let mut byte = 0;
    for gate in gates.iter().rev() {
        byte = byte * 2 + u8::from(forced_value(solver, base, inputs, *gate));
    }
    byte
}

// The bytes of the tests.
// Kept: tests by number, since only their number tells which variables are theirs.
pub(crate) fn read_tests<S: Solver>(
    solver: &S,
    problem: &Problem,
    set: &GateSet,
) -> InlineList<u8, 32>
    requires sound { S.Solver.sound solver.now }
    requires set { IsSet (length (circuit_of problem.now.circuit.now).gates) (set_of set.now) }
    requires vars { variables (circuit_of problem.now.circuit.now) (tests_of problem.now.tests.now) problem.now.bound.value ≤ (S.Solver.meaning solver.now).vars }
    ensures len { length (listed result) ≡ length (tests_of problem.now.tests.now) }
    ensures value { (t : ℕ) → t < length (tests_of problem.now.tests.now) → slice_index (listed result) t ≡ reading (set_of set.now) (λ g. told (S.Solver.meaning solver.now).shown (forced_variable (base_of (circuit_of problem.now.circuit.now) problem.now.bound.value t) (circuit_of problem.now.circuit.now).inputs g)) }
{
    let inputs = problem.circuit.inputs();
    let mut readings = InlineList::none(0);
    for t in 0..problem.tests.len() {
        let byte = read_test(solver, problem.variables_before(t), inputs, set.as_slice());
        let _ = readings.push(byte);
    }
    readings
}
