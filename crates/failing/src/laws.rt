// What a missed test is: the function does nothing, and its contract is the law.
ghost use Rattle.failing.specs.Missed.{MissedUnexplained};

pub fn missed_is_unexplained()
    ensures { MissedUnexplained }
{}
