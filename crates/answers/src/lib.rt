// What a solver takes and answers while the next set is looked for: definitions in specs/, and the lemmas about them in proofs/.
#![tactic(auto)]
