// The kinds of gates.
ghost use Rattle.std.specs.Prelude.{◌≡◌};
ghost use Rattle.circuit.specs.Kinds.{takes};

#[derive(Clone, Copy, PartialEq, Eq, Debug)]
pub enum Kind {
    And,
    Or,
    Nand,
    Nor,
    Xor,
    Xnor,
    Not,
}

impl Kind {
    // Whether a gate of this kind takes so many operands.
    pub fn takes(self, count: usize) -> bool
        ensures { result ≡ takes self count }
    {
        match self {
            Kind::And | Kind::Or | Kind::Nand | Kind::Nor => count >= 2 && count <= 8,
            Kind::Xor | Kind::Xnor => count == 2,
            Kind::Not => count == 1,
        }
    }
}
