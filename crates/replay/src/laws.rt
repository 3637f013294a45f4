// Laws of what is asked and written: each function does nothing, and its contract is the law.
ghost use Rattle.replay.specs.Asked.{SetsAdmitted};
ghost use Rattle.replay.specs.SettledLaw.{SettledHolds};

pub fn sets_are_admitted()
    ensures { SetsAdmitted }
{}

pub fn settled_bits_hold()
    ensures { SettledHolds }
{}
