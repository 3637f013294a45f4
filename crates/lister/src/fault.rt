// Why the next set is not looked for.

#[derive(Clone, Copy, PartialEq, Eq, Debug)]
pub enum ListFault {
    // the circuit has no gate, a test is none of the circuit, or a set given is no set of its gates
    Unfit,
    // the solver has not the variables, the width or the room
    SmallSolver,
}
