// What a line says.
use crate::name::Name;
use circuit::{Kind, Operands};

#[derive(Clone, Copy)]
pub enum Statement {
    Input(Name),
    Output(Name),
    Gate {
        name: Name,
        kind: Kind,
        operands: Operands<Name>,
    },
    // A gate with more than eight operands, which no kind takes.
    Crowded,
}
