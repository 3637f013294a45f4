// Laws of the definitions: each function does nothing, and its contract is the law.
ghost use Rattle.circuit.specs.KindLaws.{KindsAsNamed};

pub fn kinds_compute_as_named()
    ensures { KindsAsNamed }
{}
