// The slice that a ternary search is lent, cut into its parts, and how a clause is kept there.
ghost use Rattle.std.specs.Prelude.{◌≡◌, ◌+◌, ◌*◌, ◌≤◌, length, pos, slice_index_or};
ghost use Rattle.solver.specs.Meaning.{New};
ghost use Rattle.assignment.specs.Stored.{triple_set};
ghost use Rattle.ternary.specs.Stands.{sizes_over, stands, Sound};

use crate::TernarySearch;

impl<'a> TernarySearch<'a> {
    // A search over a slice of numbers, as after a begin with no variables. What the slice holds does not matter.
    pub fn over(words: &'a mut [i32]) -> TernarySearch<'a>
        ensures sizes { (stands result).sizes ≡ sizes_over (length words.old) }
        ensures new { New (stands result) }
        ensures sound { Sound result }
    {
        let eighth = words.len() / 8;
        let capacity = eighth.min(1000000);
        let (clauses, rest) = words.split_at_mut(3 * capacity);
        let (values, rest) = rest.split_at_mut(capacity);
        let (trail, rest) = rest.split_at_mut(capacity);
        let (decisions, occurrences) = rest.split_at_mut(capacity);
        TernarySearch {
            clauses,
            values,
            trail,
            decisions,
            occurrences,
            limit: capacity,
            vars: 0,
            count: 0,
            room: capacity,
            found: false,
        }
    }
}

// The literal i of a clause, or 0.
fn place(clause: &[i32], i: usize) -> i32
    ensures { result ≡ slice_index_or clause.now i (pos 0) }
{
    clause.get(i).copied().unwrap_or(0)
}

// Writes a clause of up to three literals behind the first count.
pub fn store_clause(places: &mut [i32], count: usize, clause: &[i32])
    requires { 3 * count + 3 ≤ length places.old }
    ensures { places.new ≡ triple_set places.old (3 * count) clause.now }
{
    let at = 3 * count;
    places[at] = place(clause, 0);
    places[at + 1] = place(clause, 1);
    places[at + 2] = place(clause, 2);
}
