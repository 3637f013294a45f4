// What clauses are written to.
ghost use Rattle.std.specs.Prelude.{◌≡◌, true, false, List, [], ◌∷◌, ◌++◌, length, ℤ};

// Takes clauses, one after another.
pub trait ClauseSink {
    // What it rests on, before and after each clause.
    ghost ready: { Self → Type 0 };

    // What it means that a sink, having taken these clauses, is as it is then.
    ghost took: { Self → List (List ℤ) → Self → Type 0 };

    ghost none: { (s : Self) → ready s → took s [] s };

    ghost both: { (s t u : Self) (a b : List (List ℤ)) → took s a t → took t b u → took s (a ++ b) u };

    fn take(&mut self, clause: &[i32])
        requires { ready self.old }
        ensures ready { ready self.new }
        ensures took { took self.old (clause.now ∷ []) self.new };

    // Whether the sink has no use for the next clauses, so many of them: then they count as taken, and need not be written.
    fn pass(&mut self, count: usize) -> bool
        requires { ready self.old }
        ensures ready { ready self.new }
        ensures passed { result ≡ true → (cs : List (List ℤ)) → length cs ≡ count → took self.old cs self.new }
        ensures kept { result ≡ false → self.new ≡ self.old };
}
