// The calls that every solver answers, and what it shows of each.
ghost use Rattle.std.specs.Prelude.{◌≡◌, IfOk, MatchResult};
ghost use Rattle.solver.specs.Meaning.{Meaning, Bounded, Begun, Added, Solved};
ghost use Rattle.solver.specs.Refusals.{refusal, begin_refusal, add_refusal, solve_refusal, value_refusal, Shows};

use crate::SolverFault;

pub trait Solver {
    // What the solver stands for.
    ghost meaning: { Self → Meaning };

    // What it rests on beyond the facts of its type: it holds of a new solver and after every call.
    ghost sound: { Self → Type 0 };

    ghost bounded: { (s : Self) → sound s → Bounded (meaning s) };

    // The most variables that may be in use.
    fn capacity(&self) -> usize
        ensures { result ≡ (meaning self.now).sizes.capacity };

    // The most literals that a clause may have.
    fn width(&self) -> usize
        ensures { result ≡ (meaning self.now).sizes.width };

    // The room after a begin.
    fn full_room(&self) -> usize
        ensures { result ≡ (meaning self.now).sizes.full };

    // Starts over, with the variables 1 to vars and every row allowed.
    fn begin(&mut self, vars: usize) -> Result<(), SolverFault>
        requires { sound self.old }
        ensures refused { refusal result ≡ begin_refusal (meaning self.old) vars }
        ensures cases { MatchResult result (λ _. Begun (meaning self.old) vars (meaning self.new)) (λ _. self.new ≡ self.old) }
        ensures sound { sound self.new };

    // Keeps only the rows where a literal of the clause is true.
    fn add(&mut self, clause: &[i32]) -> Result<(), SolverFault>
        requires { sound self.old }
        ensures refused { refusal result ≡ add_refusal (meaning self.old) clause.now }
        ensures cases { MatchResult result (λ _. Added (meaning self.old) clause.now (meaning self.new)) (λ _. self.new ≡ self.old) }
        ensures sound { sound self.new };

    // Whether an allowed row has each assumed literal true; if so, it shows one.
    fn solve(&mut self, assumed: &[i32]) -> Result<bool, SolverFault>
        requires { sound self.old }
        ensures refused { refusal result ≡ solve_refusal (meaning self.old) assumed.now }
        ensures cases { MatchResult result (λ answer. Solved (meaning self.old) assumed.now answer (meaning self.new)) (λ _. self.new ≡ self.old) }
        ensures sound { sound self.new };

    // The value of a variable in the row shown.
    fn value(&self, variable: usize) -> Result<bool, SolverFault>
        requires { sound self.now }
        ensures refused { refusal result ≡ value_refusal (meaning self.now) variable }
        ensures cases { IfOk result (Shows (meaning self.now).shown variable) };
}
