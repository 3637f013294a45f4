// Loading a netlist, and what is in.
ghost use Rattle.std.specs.Prelude.{◌≡◌, IfOk, None, OnOk};
ghost use Rattle.std.specs.Option.{option_map};
ghost use Rattle.std.specs.Result.{result_err};
ghost use Rattle.netlist_text.specs.Meaning.{load};
ghost use Rattle.netlist.specs.Faults.{refusal_of};
ghost use Rattle.netlist.specs.Held.{held_by, kept, SoundIn};

use crate::fault::ReadFault;
use crate::netlist::Netlist;
use crate::tables::Tables;
use std::alloc::{AllocError, Global};

impl Netlist {
    // No netlist, with room for the largest: loading needs no more memory.
    pub fn new(heap: Global) -> Result<Netlist, AllocError>
        ensures { IfOk result (λ n. held_by n ≡ None) }
    {
        let tables = Tables::new(heap)?;
        Ok(Netlist {
            tables,
            loaded: false,
        })
    }

    // Takes the netlist that a text gives, or tells why not and leaves what is in as it was.
    pub fn load(&mut self, text: &[u8]) -> Result<(), ReadFault>
        ensures refused { option_map refusal_of (result_err result) ≡ result_err (load (held_by self.old) text.now) }
        ensures after { held_by self.new ≡ kept (held_by self.old) (load (held_by self.old) text.now) }
        ensures sound { OnOk result (SoundIn (held_by self.new)) }
    {
        if self.loaded {
            return Err(ReadFault::Loaded);
        }
        self.tables.clear();
        self.tables.read(text)?;
        self.loaded = true;
        Ok(())
    }
}
