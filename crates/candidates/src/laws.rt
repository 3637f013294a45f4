// The laws of the clauses added for the next set.
ghost use Rattle.candidates.specs.CandidateLaws.{RowsAreCandidates, LowestRowIsFirst, NoRowNoCandidate, AddedWithinVariables, RowBringsOut};

pub fn rows_are_candidates()
    ensures { RowsAreCandidates }
{}

pub fn lowest_row_is_first()
    ensures { LowestRowIsFirst }
{}

pub fn no_row_no_candidate()
    ensures { NoRowNoCandidate }
{}

pub fn added_within_variables()
    ensures { AddedWithinVariables }
{}

pub fn row_brings_out()
    ensures { RowBringsOut }
{}
