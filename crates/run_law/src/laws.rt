// What the law over runs says of some short runs.
ghost use Rattle.run_law.specs.WrongRuns.{WrongRunsUnlawful, RightRunLawful};

pub fn wrong_runs_are_unlawful()
    ensures { WrongRunsUnlawful }
{}

pub fn right_run_is_lawful()
    ensures { RightRunLawful }
{}
