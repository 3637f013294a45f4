// What came of the calls played.
ghost use Rattle.std.specs.Prelude.{◌≡◌, ◌+◌, ◌*◌, ◌-◌, ◌%◌, ◌^◌, ◌↔◌, IsTrue, slice_index, slice_set};
ghost use Rattle.solver.specs.Refusals.{number};
ghost use Rattle.conformance.specs.Tallies.{up, code, CountsAnswer};

use crate::answer::Answer;
use solver::SolverFault;
use std::fmt;

// One more, up to the most that 32 bits hold.
fn raise(count: &mut u32)
    ensures { count.new ≡ up count.old }
{
    *count = count.saturating_add(1);
}

#[derive(Clone, Copy, Default)]
pub struct Tally {
    pub calls: u32,
    pub accepted: u32,
    pub yes: u32,
    pub no: u32,
    pub refused: [u32; 5],
    pub mismatches: u32,
    pub digest: u32,
}

impl Tally {
    // Counts an answer.
    pub fn count(&mut self, told: Answer, expected: Answer)
        ensures { CountsAnswer self.old self.new (code told) (code expected) }
    {
        raise(&mut self.calls);
        if told != expected {
            self.mismatch();
        }
        match told {
            Answer::No => raise(&mut self.no),
            Answer::Yes => raise(&mut self.yes),
            Answer::Done | Answer::Zero | Answer::One => raise(&mut self.accepted),
            Answer::Refused(fault) => self.refuse(fault),
        }
    }

    fn refuse(&mut self, fault: SolverFault)
        ensures { let kind = number fault - 20 in self.new ≡ record self.old { refused = slice_set self.old.refused kind (up (slice_index self.old.refused kind)) } }
    {
        let kind = (fault.number() - 20) as usize;
        self.refused[kind] = self.refused[kind].saturating_add(1);
    }

    pub fn mismatch(&mut self)
        ensures { self.new ≡ record self.old { mismatches = up self.old.mismatches } }
    {
        raise(&mut self.mismatches);
    }

    // Takes an answer that leaves no choice into the digest.
    pub fn fix(&mut self, told: Answer)
        ensures { self.new ≡ record self.old { digest = (self.old.digest * 31 + code told) % 2 ^ 32 } }
    {
        self.digest = self.digest.wrapping_mul(31).wrapping_add(told.code());
    }

    // Whether two solvers gave the same answers.
    pub fn agrees(&self, other: &Tally) -> bool
        ensures { IsTrue result ↔ (self.now.digest ≡ other.now.digest) }
    {
        self.digest == other.digest
    }
}

impl fmt::Display for Tally {
    fn fmt<W: fmt::Write>(&self, f: &mut fmt::Formatter<W>) -> fmt::Result {
        let Tally {
            calls,
            accepted,
            yes,
            no,
            refused,
            mismatches,
            digest,
        } = *self;
        let [variables, unknown, length, room, value] = refused;
        write!(
            f,
            "{calls} calls, {accepted} done, {yes} yes, {no} no, refused 20 {variables}, 21 {unknown}, 22 {length}, 23 {room}, 24 {value}, "
        )?;
        write!(f, "answers {digest}, mismatches {mismatches}")
    }
}
