// The refusal that each fault is.
ghost use Rattle.std.specs.Prelude.{◌≡◌};
ghost use Rattle.netlist.specs.Faults.{number, column_of, refusal_of};

use crate::fault::{LineFault, ReadFault};
use refusal::Refusal;

impl LineFault {
    // The question that it says no to.
    // Kept: a table, since a kind of fault with a value beside it has no number of its own.
    fn number(self) -> usize
        ensures { result ≡ number self }
    {
        match self {
            LineFault::Byte(_) => 3,
            LineFault::Form => 4,
            LineFault::OperandCount => 5,
            LineFault::Redefined => 6,
            LineFault::Undefined => 7,
            LineFault::Full => 8,
        }
    }

    // Where it is in its line, or 0.
    fn column(self) -> usize
        ensures { result ≡ column_of self }
    {
        match self {
            LineFault::Byte(fault) => fault.column,
            _ => 0,
        }
    }
}

impl From<ReadFault> for Refusal {
    ghost from_gives = { λ fault r. r ≡ refusal_of fault };

    fn from(fault: ReadFault) -> Refusal {
        match fault {
            ReadFault::Loaded => Refusal::numbered(1),
            ReadFault::Long => Refusal::numbered(2),
            ReadFault::Line(line, fault) => Refusal {
                number: fault.number(),
                line,
                column: fault.column(),
            },
            ReadFault::Lacking => Refusal::numbered(9),
            ReadFault::Output(line) => Refusal {
                number: 10,
                line,
                column: 0,
            },
        }
    }
}
