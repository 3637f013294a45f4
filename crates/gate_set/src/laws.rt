// The law of ascending numbers: the function does nothing, and its contract is the law.
ghost use Rattle.gate_set.specs.Ascending.{AscendingNumbersSets};

pub fn ascending_numbers_are_sets()
    ensures { AscendingNumbersSets }
{}
