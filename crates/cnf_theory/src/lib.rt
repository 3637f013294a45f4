// The formula for a circuit, its tests and a bound: clauses whose rows are the sets of gates that explain, and what each promise about them rests on.
// Every function here does nothing: its contract is a law of the definitions, and the check asks for its proof.
#![tactic(auto)]

mod laws;

pub use laws::{
    clauses_have_nine_at_most, counter_literal_bounds_marks, formula_says_explains,
    literals_name_variables,
};
