// The refusal that each fault is, and what is wrong in words.
ghost use Rattle.std.specs.Prelude.{◌≡◌};
ghost use Rattle.testlog.specs.Faults.{refusal_of};

use crate::fault::RecordFault;
use refusal::Refusal;
use std::fmt;

// By the number of the question that it says no to.
impl From<RecordFault> for Refusal {
    ghost from_gives = { λ fault refusal. refusal ≡ refusal_of fault };

    fn from(fault: RecordFault) -> Refusal {
        Refusal::numbered(fault as usize)
    }
}

impl RecordFault {
    pub fn refusal(self) -> Refusal
        ensures { result ≡ refusal_of self }
    {
        Refusal::from(self)
    }

    // Kept: sentences in a function, since the gate takes an attribute that speaks of a test, as `thiserror` would want, for the mark of one.
    fn sentence(self) -> &'static str {
        match self {
            RecordFault::Full => "at most 32 tests are held",
            RecordFault::Length => "a record is as long as its map requires",
            RecordFault::UnusedBits => "the unused bits of a record are 0",
            RecordFault::Amendment =>
                "a change names a test that is held, one of its outputs, and 0, 1 or 2 for not measured",
            RecordFault::NoTest => "no test is held",
        }
    }
}

// What is wrong, in words.
impl fmt::Display for RecordFault {
    fn fmt<W: fmt::Write>(&self, f: &mut fmt::Formatter<W>) -> fmt::Result {
        f.write_str(self.sentence())
    }
}
