// Clauses as masks: bit v - 1 stands for variable v.
ghost use Rattle.std.specs.Prelude.{◌≡◌, ℕ, true, not, ◌||◌};
ghost use Rattle.solver.specs.Rows.{Row, named, all_named, holds};
ghost use Rattle.row_walker.specs.Masks.{row_of, inverse, clause_true, within, Means};

#[derive(Clone, Copy, Default)]
pub struct Clause {
    pub positive: u32,
    pub negative: u32,
}

impl Clause {
    // The clause with one literal more.
    fn with(self, literal: i32) -> Clause
        requires { named 32 literal ≡ true }
        ensures inside { (vars : ℕ) → named vars literal ≡ true → within vars self ≡ true → within vars result ≡ true }
        ensures says { (row : Row) → clause_true row result ≡ (clause_true row self || holds row literal) }
    {
        let bit = 1 << (literal.unsigned_abs() - 1);
        if literal < 0 {
            Clause {
                negative: self.negative | bit,
                ..self
            }
        } else {
            Clause {
                positive: self.positive | bit,
                ..self
            }
        }
    }

    // The clause of these literals.
    pub fn of(literals: &[i32]) -> Clause
        requires { all_named 32 literals.now ≡ true }
        ensures { (vars : ℕ) → all_named vars literals.now ≡ true → Means vars literals.now result }
    {
        // Kept: tried a fold, with what `with` requires stated at its closure; the proof did not close, as each turn has to show that the
        // literal is one of those of the clause.
        let mut clause = Clause::default();
        for literal in literals {
            clause = clause.with(*literal);
        }
        clause
    }

    // Whether some literal is true in a row.
    pub fn some_true(self, row: u32) -> bool
        ensures { result ≡ clause_true (row_of row) self }
    {
        row & self.positive != 0 || row & self.negative != self.negative
    }

    // Whether each literal is true in a row: none is true in its inverse.
    pub fn all_true(self, row: u32) -> bool
        ensures { result ≡ not (clause_true (inverse (row_of row)) self) }
    {
        row & self.positive == self.positive && row & self.negative == 0
    }
}
