// Evaluation of circuits whose signals stand for one bit or for both.
// Every function here does nothing: its contract is a law of the definitions, and the check asks for its proof.
#![tactic(auto)]

ghost use Rattle.evaluation.specs.EvaluationLaws.{GateLaw, EvaluationCovers, EvaluationOfBits};

pub fn gates_follow_the_law()
    ensures { GateLaw }
{}

pub fn evaluation_covers()
    ensures { EvaluationCovers }
{}

pub fn evaluation_of_bits()
    ensures { EvaluationOfBits }
{}
