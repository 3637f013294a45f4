// What comes next in a full list.
ghost use Rattle.diagnosis.specs.Next.{EndsWithoutCandidates, FirstCandidateIsNext, NextByGates};

pub fn ends_without_candidates()
    ensures { EndsWithoutCandidates }
{}

pub fn first_candidate_is_next()
    ensures { FirstCandidateIsNext }
{}

pub fn next_by_gates()
    ensures { NextByGates }
{}
