// Why a solver refuses a call, each with the number by which users know it.
#[derive(Clone, Copy, PartialEq, Eq, Debug)]
pub enum SolverFault {
    TooManyVariables = 20,
    UnknownVariable = 21,
    TooLong = 22,
    NoRoom = 23,
    NoValue = 24,
}
