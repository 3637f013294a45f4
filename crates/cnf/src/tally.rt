// The sizes of what is written.
ghost use Rattle.cnf.specs.Tallied.{Tallied};
ghost use Rattle.cnf.specs.TalliedLaws.{tallied_none, tallied_both};

use crate::sink::ClauseSink;
use solver::price;

// How many clauses were taken, the longest, and their summed prices.
#[derive(Clone, Copy, Default)]
pub struct Tally {
    pub count: usize,
    pub longest: usize,
    pub prices: usize,
}

impl ClauseSink for Tally {
    ghost ready = { λ s. Unit {0} };

    ghost took = { λ s cs t. Tallied s cs t };

    ghost none = { λ s h. tallied_none s };

    ghost both = { λ s t u a b x y. tallied_both s t u a b x y };

    fn take(&mut self, clause: &[i32]) {
        self.count = self.count.wrapping_add(1);
        self.longest = self.longest.max(clause.len());
        self.prices = self.prices.wrapping_add(price(clause.len()));
    }

    fn pass(&mut self, _count: usize) -> bool {
        false
    }
}
