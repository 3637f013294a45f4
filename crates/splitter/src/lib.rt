// A solver over any solver: it takes longer clauses, and hands them on in threes.
#![tactic(auto)]

mod account;
mod below;
mod calls;
mod threes;

use account::Account;
use solver::Solver;

// Fresh variables of the solver below are numbered after the variables in use here.
#[derive(Drop)]
pub struct Splitter<S: Solver> {
    below: S,
    vars: usize,
    account: Account,
}
