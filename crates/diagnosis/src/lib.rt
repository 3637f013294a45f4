// Diagnosis: which sets of gates explain what was measured, and the full list of the minimal ones.
// Every function here does nothing: its contract is a law of the definitions, and the check asks for its proof.
#![tactic(auto)]

mod explaining;
mod listing;
mod next;

pub use explaining::{
    brings_out_what_was_measured, gate_values_are_consistent, readings_bring_out, search_decides,
    supersets_explain, tests_need_own_values,
};
pub use listing::{
    explaining_contains_minimal, full_list_has_each_once, full_list_is_exact, full_list_is_unique,
    marked_gates_are_a_set, minimal_when_none_drops, order_is_strict_and_total,
};
pub use next::{ends_without_candidates, first_candidate_is_next, next_by_gates};
