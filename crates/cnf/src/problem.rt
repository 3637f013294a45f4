// A diagnosis problem: a circuit, the tests of it, and the bound of the list.
use crate::bound::Bound;
use circuit::Circuit;
use testlog::TestTable;

#[derive(Clone, Copy)]
pub struct Problem<'a> {
    pub circuit: &'a Circuit,
    pub tests: &'a TestTable,
    pub bound: Bound,
}
