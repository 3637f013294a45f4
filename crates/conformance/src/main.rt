// Plays fixed pseudo-random calls to each solver, and compares every answer with that of a truth table.
#![tactic(auto)]

mod answer;
mod draws;
mod model;
mod play;
mod script;
mod tally;

use model::Model;
use play::play;
use row_walker::RowWalker;
use script::Script;
use solver::Solver;
use splitter::Splitter;
use std::io;
use tally::Tally;
use ternary::TernarySearch;

const SEED: u32 = 20261118;

// Each solver has calls of its own, with as many variables as it answers quickly; then all are played the same calls, within the
// sizes of the smallest.
fn main(rt: HostRuntime) -> io::Result<()> {
    let mut walker = RowWalker::new();
    let mut split = Splitter::over(RowWalker::new());
    let mut twice = Splitter::over(Splitter::over(RowWalker::new()));
    let mut none = [7i32; 7];
    let mut tiny = TernarySearch::over(&mut none);
    let mut words = [-1i32; 199];
    let mut search = TernarySearch::over(&mut words);
    let mut more = [1i32; 384];
    let mut above = Splitter::over(TernarySearch::over(&mut more));
    println!(rt; "seed {SEED}")?;
    sizes(&rt, "row walker", &walker)?;
    sizes(&rt, "splitter over the row walker", &split)?;
    sizes(&rt, "splitter over that splitter", &twice)?;
    sizes(&rt, "ternary search over 7 numbers", &tiny)?;
    sizes(&rt, "ternary search over 199 numbers", &search)?;
    sizes(&rt, "splitter over one over 384 numbers", &above)?;
    report(
        &rt,
        "row walker",
        &own(&mut walker, Script::new(SEED, 10, 30), 4000),
    )?;
    report(
        &rt,
        "row walker, seldom begun",
        &own(&mut walker, Script::new(SEED, 10, 400), 2000),
    )?;
    report(
        &rt,
        "splitter over the row walker",
        &own(&mut split, Script::new(SEED, 5, 15), 3000),
    )?;
    report(
        &rt,
        "splitter over that splitter",
        &own(&mut twice, Script::new(SEED, 3, 10), 1000),
    )?;
    report(
        &rt,
        "ternary search over 7 numbers",
        &own(&mut tiny, Script::new(SEED, 2, 10), 200),
    )?;
    report(
        &rt,
        "ternary search",
        &own(&mut search, Script::new(SEED, 10, 30), 4000),
    )?;
    report(
        &rt,
        "ternary search, seldom begun",
        &own(&mut search, Script::of_threes(SEED, 10, 60), 4000),
    )?;
    report(
        &rt,
        "splitter over the ternary search",
        &own(&mut above, Script::new(SEED, 10, 30), 4000),
    )?;
    let first = shared(&mut walker);
    report(
        &rt,
        "the same calls to the row walker and all splitters",
        &first,
    )?;
    agree(
        &rt,
        first.agrees(&shared(&mut split))
            && first.agrees(&shared(&mut twice))
            && first.agrees(&shared(&mut above)),
    )?;
    let first = threes(&mut walker);
    report(
        &rt,
        "the same clauses of three to the row walker and the ternary search",
        &first,
    )?;
    agree(&rt, first.agrees(&threes(&mut search)))
}

// Plays calls beside a truth table of the solver's own sizes.
fn own<S: Solver>(solver: &mut S, script: Script, calls: u32) -> Tally
    requires { S.Solver.sound solver.old }
    ensures { S.Solver.sound solver.new }
{
    let model = Model::of(solver);
    play(solver, model, script, calls)
}

// Plays the calls that every solver here takes or refuses alike: the truth table has less room than each of them.
fn shared<S: Solver>(solver: &mut S) -> Tally
    requires { S.Solver.sound solver.old }
    ensures { S.Solver.sound solver.new }
{
    play(solver, Model::new(6, 16, 5), Script::new(SEED, 3, 10), 1000)
}

// Plays calls with clauses of up to three literals, which the row walker and the ternary search take or refuse alike.
fn threes<S: Solver>(solver: &mut S) -> Tally
    requires { S.Solver.sound solver.old }
    ensures { S.Solver.sound solver.new }
{
    play(
        solver,
        Model::new(24, 3, 23),
        Script::of_threes(SEED, 10, 60),
        4000,
    )
}

fn sizes<S: Solver>(rt: &impl Print, name: &str, solver: &S) -> io::Result<()> {
    let capacity = solver.capacity();
    let width = solver.width();
    let room = solver.full_room();
    println!(rt; "{name}: capacity {capacity}, width {width}, room {room}")
}

fn report(rt: &impl Print, name: &str, tally: &Tally) -> io::Result<()> {
    println!(rt; "{name}: {tally}")
}

fn agree(rt: &impl Print, same: bool) -> io::Result<()> {
    if same {
        println!(rt; "their answers agree")
    } else {
        println!(rt; "their answers differ")
    }
}
