// The lowest set of a size that a row marks, decided gate by gate.
ghost use Rattle.std.specs.Prelude.{◌≡◌, ◌<◌, ◌≤◌, true, false, length, take, slice_set};
ghost use Rattle.diagnosis.specs.Marked.{marked};
ghost use Rattle.solver.specs.Rows.{Row, all_named};
ghost use Rattle.solver.specs.Meaning.{Kept};
ghost use Rattle.cnf_theory.specs.Literals.{integer, signed};
ghost use Rattle.answers.specs.Loaded.{SomeOff, Found};
ghost use Rattle.answers.specs.Assumed.{Tried};
ghost use Rattle.gate_set.specs.Held.{set_of};

use crate::ask::ask;
use crate::literal::literal;
use gate_set::GateSet;
use solver::Solver;

// Whether a row with the literals assumed before can mark the gate; the literal that then holds is assumed too.
// If as many gates are marked as may be, none can, and the solver need not be asked.
// Kept: the flag `full`, since the set that tells it is the caller's, and nothing else of it is needed here.
fn decide<S: Solver>(solver: &mut S, assumed: &mut [i32], gate: usize, full: bool) -> bool
    requires sound { S.Solver.sound solver.old }
    requires sizes { (1 ≤ gate) × ((gate ≤ 256) × ((gate < length assumed.old) × (gate ≤ (S.Solver.meaning solver.old).vars))) }
    requires named { all_named (S.Solver.meaning solver.old).vars (take gate assumed.old) ≡ true }
    requires full { full ≡ true → Tried (S.Solver.meaning solver.old) (take gate assumed.old) gate false }
    ensures sound { S.Solver.sound solver.new }
    ensures kept { Kept (S.Solver.meaning solver.old) (S.Solver.meaning solver.new) }
    ensures assumed { assumed.new ≡ slice_set assumed.old gate (integer (signed result gate)) }
    ensures tried { Tried (S.Solver.meaning solver.old) (take gate assumed.old) gate result }
{
    if full {
        assumed[gate] = literal(gate, false);
        return false;
    }
    assumed[gate] = literal(gate, true);
    let marked = ask(solver, &assumed[..gate + 1]);
    assumed[gate] = literal(gate, marked);
    marked
}

// The lowest set that a row with the count off marks, its literals assumed one after another; the solver then shows such a row.
// Kept: gates by number, since there is no list of them to go through.
fn walk<S: Solver>(
    solver: &mut S,
    assumed: &mut [i32],
    gates: usize,
    count: usize,
    most: usize,
) -> GateSet
    requires sound { S.Solver.sound solver.old }
    requires sizes { (gates ≤ 256) × ((gates < length assumed.old) × ((1 ≤ count) × ((count ≤ 100000) × (most ≤ 6)))) }
    requires vars { (count ≤ (S.Solver.meaning solver.old).vars) × (gates ≤ (S.Solver.meaning solver.old).vars) }
    requires some { SomeOff (S.Solver.meaning solver.old) count }
    requires few { (row : Row) → (S.Solver.meaning solver.old).allowed row → row count ≡ false → length (marked row gates) ≤ most }
    ensures sound { S.Solver.sound solver.new }
    ensures kept { Kept (S.Solver.meaning solver.old) (S.Solver.meaning solver.new) }
    ensures found { Found (S.Solver.meaning solver.old) count gates (set_of result) (S.Solver.meaning solver.new) }
{
    assumed[0] = literal(count, false);
    let mut set = GateSet::none(0);
    for g in 0..gates {
        let full = set.len() >= most;
        if decide(solver, assumed, g + 1, full) {
            let _ = set.push(g + 1);
        }
    }
    ask(solver, &assumed[..gates + 1]);
    set
}

// The lowest set that a row with the count off marks. No such row marks more than `most` gates.
pub(crate) fn lowest<S: Solver>(solver: &mut S, gates: usize, count: usize, most: usize) -> GateSet
    requires sound { S.Solver.sound solver.old }
    requires sizes { (gates ≤ 256) × ((1 ≤ count) × ((count ≤ 100000) × (most ≤ 6))) }
    requires vars { (count ≤ (S.Solver.meaning solver.old).vars) × (gates ≤ (S.Solver.meaning solver.old).vars) }
    requires some { SomeOff (S.Solver.meaning solver.old) count }
    requires few { (row : Row) → (S.Solver.meaning solver.old).allowed row → row count ≡ false → length (marked row gates) ≤ most }
    ensures sound { S.Solver.sound solver.new }
    ensures kept { Kept (S.Solver.meaning solver.old) (S.Solver.meaning solver.new) }
    ensures found { Found (S.Solver.meaning solver.old) count gates (set_of result) (S.Solver.meaning solver.new) }
{
    // Kept: an array, since a gate's literal is turned in its own place, which the gate's number tells.
    let mut assumed = [0; 257];
    walk(solver, &mut assumed, gates, count, most)
}
