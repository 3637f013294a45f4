// The walk through the rows, in the order of their numbers.
ghost use Rattle.std.specs.Prelude.{◌≡◌, ◌≤◌, true};
ghost use Rattle.std.specs.List.{list_all};
ghost use Rattle.solver.specs.Rows.{all_named};
ghost use Rattle.row_walker.specs.Masks.{row_of, clause_true, within, Found};

use crate::clause::Clause;

// Whether each clause is true in a row.
fn allows(clauses: &[Clause], row: u32) -> bool
    ensures { result ≡ list_all (clause_true (row_of row)) clauses.now }
{
    // Kept: with a chain in its place the walk takes a third longer.
    for clause in clauses {
        if !clause.some_true(row) {
            return false;
        }
    }
    true
}

// The first row that the clauses allow and that has each assumed literal true.
pub fn first_row(vars: usize, clauses: &[Clause], assumed: &[i32]) -> Option<u32>
    requires vars { vars ≤ 24 }
    requires clauses { list_all (within vars) clauses.now ≡ true }
    requires assumed { all_named vars assumed.now ≡ true }
    ensures { Found vars clauses.now assumed.now result }
{
    let wanted = Clause::of(assumed);
    (0..1u32 << vars).find(|row| wanted.all_true(*row) && allows(clauses, *row))
}
