// The trail of a search.
ghost use Rattle.std.specs.Prelude.{◌≡◌, ℕ, ◌-◌, ◌<◌, ◌≤◌, length, pos, neg_ℤ, MatchOption, slice_index_or, slice_set, unsigned_abs};
ghost use Rattle.assignment.specs.Trail.{Recorded, NoOpen};
ghost use Rattle.ternary.specs.Search.{Same, Backtracked, mark_of, values_of, trail_of, decisions_of};

use crate::TernarySearch;

// Whether an entry is a decision whose negation is still to be tried.
#[derive(Clone, Copy)]
pub enum Mark {
    Settled = 0,
    Open = 1,
}

// Writes 0 into each place.
pub fn clear(places: &mut [i32])
    ensures { (k : ℕ) → k < length places.new → slice_index_or places.new k (pos 0) ≡ pos 0 }
{
    places.fill(0);
}

impl<'a> TernarySearch<'a> {
    // Makes a literal true, as an entry behind the first len.
    pub(crate) fn assign(&mut self, len: usize, literal: i32, mark: Mark)
        requires some { 1 ≤ unsigned_abs literal }
        requires within { unsigned_abs literal ≤ length (values_of self.old) }
        requires trail { len < length (trail_of self.old) }
        requires decisions { len < length (decisions_of self.old) }
        ensures same { Same self.old self.new }
        ensures values { values_of self.new ≡ slice_set (values_of self.old) (unsigned_abs literal - 1) literal }
        ensures trail { trail_of self.new ≡ slice_set (trail_of self.old) len literal }
        ensures decisions { decisions_of self.new ≡ slice_set (decisions_of self.old) len (mark_of mark) }
    {
        let v = literal.unsigned_abs() as usize;
        self.values[v - 1] = literal;
        self.trail[len] = literal;
        self.decisions[len] = mark as i32;
    }

    // Unsets the entries before len, from the last on, down to the last open decision, which is unset too.
    pub(crate) fn backtrack(&mut self, len: usize) -> Option<usize>
        requires recorded { Recorded (values_of self.old) (trail_of self.old) len }
        requires trail { len ≤ length (trail_of self.old) }
        requires decisions { len ≤ length (decisions_of self.old) }
        ensures same { Same self.old self.new }
        ensures values { length (values_of self.new) ≡ length (values_of self.old) }
        ensures trail { trail_of self.new ≡ trail_of self.old }
        ensures decisions { decisions_of self.new ≡ decisions_of self.old }
        ensures stop { MatchOption result (NoOpen (decisions_of self.old) 0 len) (λ p. Backtracked self.old len p (values_of self.new)) }
    {
        for p in (0..len).rev() {
            let v = self.trail[p].unsigned_abs() as usize;
            self.values[v - 1] = 0;
            if self.decisions[p] > 0 {
                return Some(p);
            }
        }
        None
    }
}

// The other literal of a variable.
pub fn negated(literal: i32) -> i32
    requires { unsigned_abs literal ≤ 1000000 }
    ensures { result ≡ neg_ℤ literal }
{
    -literal
}
