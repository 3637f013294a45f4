// Runs of a case: the definitions of what is held, what is asked and what holds of every history. They are in specs/, and each law stands on a function here.
// Every function here does nothing: its contract is a law of the definitions, and the check asks for its proof.
#![tactic(auto)]

mod laws;

pub use laws::{right_run_is_lawful, wrong_runs_are_unlawful};
