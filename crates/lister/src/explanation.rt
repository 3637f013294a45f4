// What the lister finds.
use gate_set::GateSet;
use inline_list::InlineList;

// A set that explains every test, and for each test a byte of values forced on its gates that bring out what was measured.
#[derive(Clone, Copy)]
pub struct Explanation {
    pub set: GateSet,
    pub readings: InlineList<u8, 32>,
}
