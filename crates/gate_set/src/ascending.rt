// Numbers that may be a set of gates.
ghost use Rattle.std.specs.Prelude.{◌≡◌};
ghost use Rattle.gate_set.specs.Ascending.{above};

// Whether the numbers ascend, each more than the one before and the first more than 0, up to the number of gates.
pub fn ascends(set: &[usize], gates: usize) -> bool
    ensures { result ≡ above 0 gates set.now }
{
    let mut last = 0;
    for gate in set {
        let number = *gate;
        if number <= last || number > gates {
            return false;
        }
        last = number;
    }
    true
}
