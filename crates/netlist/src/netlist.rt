// A place for a netlist: none is in at first, and a text that is taken stays.
use crate::tables::Tables;

#[derive(Drop)]
pub struct Netlist {
    pub(crate) tables: Tables,
    // Kept: a flag, since the tables keep their memory while no netlist is in.
    pub(crate) loaded: bool,
}
