// Pseudo-random calls: good ones, and ones that each question is to refuse.
ghost use Rattle.std.specs.Prelude.{◌<◌, ◌≤◌};

use crate::draws::{Draws, Literals};

#[derive(Clone, Copy)]
pub enum Call {
    Begin(usize),
    Add(Literals),
    Solve(Literals),
    Value(usize),
}

// vars are in use, at most most; one call in every is a begin; no clause is longer than longest.
#[derive(Clone, Copy)]
pub struct Script {
    draws: Draws,
    vars: u32,
    most: u32,
    every: u32,
    longest: usize,
    ghost in_range: { vars ≤ 10 },
    ghost small: { most ≤ 10 },
    ghost begins: { 0 < every },
    ghost fits: { longest ≤ 18 },
}

impl Script {
    ghost use Rattle.conformance.specs.Scripts.{KeepsTo, SameSettings, Starts};

    pub fn new(seed: u32, most: u32, every: u32) -> Script
        ensures { Starts seed most every 18 result }
    {
        Script {
            draws: Draws { seed },
            vars: 0,
            most: most.min(10),
            every: every.max(1),
            longest: 18,
        }
    }

    // The same, with clauses of up to three literals.
    pub fn of_threes(seed: u32, most: u32, every: u32) -> Script
        ensures { Starts seed most every 3 result }
    {
        let mut script = Script::new(seed, most, every);
        script.longest = 3;
        script
    }

    fn begin(&mut self) -> Call
        ensures within { KeepsTo self.old.longest result }
        ensures settings { SameSettings self.old self.new }
    {
        match self.draws.pick(8) {
            0 => Call::Begin(usize::MAX),
            1 => Call::Begin(25),
            _ => {
                let below = self.most + 1;
                self.vars = self.draws.pick(below);
                Call::Begin(self.vars as usize)
            }
        }
    }

    pub fn next(&mut self) -> Call
        ensures within { KeepsTo self.old.longest result }
        ensures settings { SameSettings self.old self.new }
    {
        let every = self.every;
        if self.draws.pick(every) == 0 {
            return self.begin();
        }
        let vars = self.vars;
        let longest = self.longest;
        match self.draws.pick(8) {
            0..=2 => {
                let len = self.draws.length(longest);
                Call::Add(self.draws.literals(vars, len))
            }
            3..=5 => {
                let len = self.draws.pick(4) as usize;
                Call::Solve(self.draws.literals(vars, len))
            }
            _ => Call::Value(self.draws.pick(vars + 2) as usize),
        }
    }
}
