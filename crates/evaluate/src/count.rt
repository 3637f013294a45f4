// How many gates a circuit has.
ghost use Rattle.std.specs.Prelude.{◌≡◌, ◌≤◌, length};
ghost use Rattle.circuit.specs.Held.{circuit_of};

use circuit::Circuit;

pub fn gate_count(circuit: &Circuit) -> usize
    ensures value { result ≡ length (circuit_of circuit.now).gates }
    ensures few { result ≤ 256 }
{
    circuit.gates().len()
}
