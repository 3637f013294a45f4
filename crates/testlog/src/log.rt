// Cutting a log into records.
ghost use Rattle.std.specs.Prelude.{◌≡◌, ◌<◌, ◌∷◌, length};
ghost use Rattle.circuit.specs.Held.{circuit_of};
ghost use Rattle.test_format.specs.Logs.{first_record, after_first, pieces};

use crate::decode::record_len;
use circuit::Circuit;

// The first record of a log, and what follows it.
pub fn cut<'a>(circuit: &Circuit, log: &'a [u8]) -> (&'a [u8], &'a [u8])
    ensures first { result.0.now ≡ first_record (circuit_of circuit.now) log.now }
    ensures rest { result.1.now ≡ after_first (circuit_of circuit.now) log.now }
    ensures shorter { 0 < length log.now → length result.1.now < length log.now }
    ensures pieces { 0 < length log.now → pieces (circuit_of circuit.now) log.now ≡ result.0.now ∷ pieces (circuit_of circuit.now) result.1.now }
{
    let required = record_len(circuit.inputs(), circuit.outputs().len(), log);
    if required == 0 || required > log.len() {
        return log.split_at(log.len());
    }
    log.split_at(required)
}
