// Clauses weighed against the width and the room of a solver, without handing them to it.
ghost use Rattle.lister.specs.Weighed.{Weighed};
ghost use Rattle.lister.specs.WeighedLaws.{weighed_none, weighed_both};

use cnf::ClauseSink;
use solver::price;

// The room that is left, or none once a clause has not fitted.
#[derive(Drop)]
pub(crate) struct Scale {
    pub width: usize,
    pub room: Option<usize>,
}

impl ClauseSink for Scale {
    ghost ready = { λ s. Unit {0} };

    ghost took = { λ s cs t. Weighed s cs t };

    ghost none = { λ s h. weighed_none s };

    ghost both = { λ s t u a b x y. weighed_both s t u a b x y };

    fn take(&mut self, clause: &[i32]) {
        let price = price(clause.len());
        self.room = match self.room {
            Some(room) if clause.len() <= self.width && price <= room => Some(room - price),
            _ => None,
        };
    }

    fn pass(&mut self, _count: usize) -> bool {
        false
    }
}
