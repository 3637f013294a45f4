// Variables and their literals, until these are handed over as signed numbers.
ghost use Rattle.std.specs.Prelude.{◌≤◌};

// A variable, by its number from 1. No formula has more of them than this.
#[derive(Clone, Copy)]
pub struct Variable {
    pub number: usize,
    ghost from_one: { 1 ≤ number },
    ghost few: { number ≤ 100000 },
}

// A variable, or its negation.
#[derive(Clone, Copy)]
pub enum Literal {
    Positive(Variable),
    Negative(Variable),
}

impl Variable {
    ghost use Rattle.std.specs.Prelude.{◌≡◌};
    ghost use Rattle.cnf_theory.specs.Literals.{signed};
    ghost use Rattle.cnf.specs.Code.{literal_of};

    // The literal that is true where the variable has this value.
    pub fn with(self, value: bool) -> Literal
        ensures { literal_of result ≡ signed value self.number }
    {
        if value {
            Literal::Positive(self)
        } else {
            Literal::Negative(self)
        }
    }
}

// As the literal is handed over.
impl From<Literal> for i32 {
    ghost use Rattle.std.specs.Prelude.{◌≡◌};
    ghost use Rattle.cnf_theory.specs.Literals.{integer};
    ghost use Rattle.cnf.specs.Code.{literal_of};

    ghost from_gives = { λ x r. r ≡ integer (literal_of x) };

    fn from(literal: Literal) -> i32 {
        match literal {
            Literal::Positive(variable) => variable.number as i32,
            Literal::Negative(variable) => -(variable.number as i32),
        }
    }
}
