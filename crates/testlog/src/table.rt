// The table of the tests that are held. It has room for all there may be, so holding one more needs no memory.
ghost use Rattle.std.specs.Prelude.{◌≤◌, vec_len, vec_capacity};

use crate::test::Test;

#[derive(Drop)]
pub struct TestTable {
    pub(crate) tests: Vec<Test>,
    ghost few: { vec_len tests ≤ 32 },
    ghost room: { 32 ≤ vec_capacity tests },
}
