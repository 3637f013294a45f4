// Candidates for the next set of a list, and the rows of a solver that stand for them.
// Every function here does nothing: its contract is a law of the definitions, and the check asks for its proof.
#![tactic(auto)]

mod laws;

pub use laws::{
    added_within_variables, lowest_row_is_first, no_row_no_candidate, row_brings_out,
    rows_are_candidates,
};
