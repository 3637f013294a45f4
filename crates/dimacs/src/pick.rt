// One clause of those that are written, by its number.
ghost use Rattle.dimacs.specs.Picked.{Picked};
ghost use Rattle.dimacs.specs.PickedLaws.{picked_none, picked_both};

use cnf::ClauseSink;
use inline_list::InlineList;

// What is picked of the clauses that are written: the one behind so many others, or its first nine literals.
#[derive(Clone, Copy)]
pub enum Pick {
    // so many clauses are still to pass
    Skipping(usize),
    // the one behind them
    Found(InlineList<i32, 9>),
}

impl ClauseSink for Pick {
    ghost ready = { λ s. Unit {0} };

    ghost took = { λ s cs t. Picked s cs t };

    ghost none = { λ s h. picked_none s };

    ghost both = { λ s t u a b x y. picked_both s t u a b x y };

    fn take(&mut self, clause: &[i32]) {
        match self {
            Pick::Found(_) => {}
            Pick::Skipping(left) if *left > 0 => *left -= 1,
            Pick::Skipping(_) => {
                let kept = &clause[..clause.len().min(9)];
                if let Ok(literals) = InlineList::of(kept, 0) {
                    *self = Pick::Found(literals);
                }
            }
        }
    }

    fn pass(&mut self, count: usize) -> bool {
        match self {
            Pick::Found(_) => true,
            Pick::Skipping(left) if *left >= count => {
                *left -= count;
                true
            }
            Pick::Skipping(_) => false,
        }
    }
}
