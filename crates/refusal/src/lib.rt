// What a refused call tells: the number of the first question that said no, and where in a text it did.
#![tactic(auto)]

use std::fmt;

// Line and column count from 1, and are 0 where the question has none.
#[derive(Clone, Copy, PartialEq, Eq, Debug)]
pub struct Refusal {
    pub number: usize,
    pub line: usize,
    pub column: usize,
}

impl Refusal {
    ghost use Rattle.std.specs.Prelude.{◌≡◌};
    ghost use Rattle.refusal.specs.Asking.{numbered};

    // By a question that has no place in a text.
    pub fn numbered(number: usize) -> Refusal
        ensures { result ≡ numbered number }
    {
        Refusal {
            number,
            line: 0,
            column: 0,
        }
    }
}

// As the programs print it: `! number line column`.
impl fmt::Display for Refusal {
    ghost use Rattle.std.specs.Prelude.{Some};
    ghost use Rattle.refusal.specs.Printed.{printed};

    ghost output = { λ r. Some (printed r) };

    fn fmt<W: fmt::Write>(&self, f: &mut fmt::Formatter<W>) -> fmt::Result {
        let number = self.number;
        let line = self.line;
        let column = self.column;
        write!(f, "! {number} {line} {column}")
    }
}
