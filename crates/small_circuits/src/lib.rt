// Small circuits worked out by hand: the definitions of reading, explaining, listing and of the formula give just what is written for them.
#![tactic(auto)]

ghost use Rattle.small_circuits.specs.SmallCircuits.{FoundAsListed, WrittenAsLaidDown};

pub fn small_circuits_are_listed()
    ensures { FoundAsListed }
{}

pub fn small_formulas_are_written()
    ensures { WrittenAsLaidDown }
{}
