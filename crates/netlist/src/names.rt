// What is in: the circuit, and the names of its signals.
ghost use Rattle.std.specs.Prelude.{◌≡◌, map};
ghost use Rattle.std.specs.Option.{option_map};
ghost use Rattle.circuit.specs.Held.{circuit_of};
ghost use Rattle.scanner.specs.Named.{name_of};
ghost use Rattle.netlist.specs.Drafts.{draft_of};
ghost use Rattle.netlist.specs.Held.{held_by, name_at, circuit_in, input_name, gate_name};

use crate::netlist::Netlist;
use crate::tables::Tables;
use circuit::Circuit;
use scanner::Name;

// The name of this number, from 1.
fn name_at(names: &[Name], number: usize) -> Option<&[u8]>
    ensures { option_map (λ x. x.now) result ≡ name_at (map name_of names.now) number }
{
    let name = names.get(number.checked_sub(1)?)?;
    Some(name.as_bytes())
}

impl Netlist {
    // The tables, if a netlist is in.
    fn held(&self) -> Option<&Tables>
        ensures { option_map (λ t. (draft_of t.now).netlist) result ≡ held_by self.now }
    {
        self.loaded.then_some(&self.tables)
    }

    // The circuit that is in, if one is.
    pub fn circuit(&self) -> Option<&Circuit>
        ensures { option_map (λ c. circuit_of c.now) result ≡ circuit_in (held_by self.now) }
    {
        Some(&self.held()?.circuit)
    }

    // The name of an input, by its number.
    pub fn input_name(&self, number: usize) -> Option<&[u8]>
        ensures { option_map (λ x. x.now) result ≡ input_name (held_by self.now) number }
    {
        name_at(self.held()?.input_names.as_slice(), number)
    }

    // The name of a gate, by its number.
    pub fn gate_name(&self, number: usize) -> Option<&[u8]>
        ensures { option_map (λ x. x.now) result ≡ gate_name (held_by self.now) number }
    {
        name_at(self.held()?.gate_names.as_slice(), number)
    }
}
