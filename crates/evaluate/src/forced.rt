// Values forced on gates.

// The value that stands in place of what the gate computes. Gates are numbered from 1.
#[derive(Clone, Copy)]
pub struct Forced<L: Copy> {
    pub gate: usize,
    pub value: L,
}
