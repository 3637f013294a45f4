// Why a record, a change of an output or the dropping of a test is refused. Each is the number of the question that says no.

#[derive(Clone, Copy, Debug)]
pub enum RecordFault {
    // 32 tests are held already
    Full = 11,
    // more or fewer bytes than the map requires
    Length = 12,
    // a bit that stands for nothing is set
    UnusedBits = 13,
    // no such test or output, or a value that is none of 0, 1 and 2
    Amendment = 14,
    // no test is held
    NoTest = 15,
}
