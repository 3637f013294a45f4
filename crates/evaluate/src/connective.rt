// The connectives that combine a gate's operands.

#[derive(Clone, Copy)]
pub(crate) enum Connective {
    And,
    Or,
    Xor,
}
