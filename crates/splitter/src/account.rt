// What a splitter has used and has left since it began.
ghost use Rattle.std.specs.Prelude.{◌≡◌, ◌+◌, ◌-◌, ◌^◌, ◌<◌, ◌≤◌};

#[derive(Clone, Copy)]
pub struct Account {
    pub fresh: usize,
    pub room: usize,
}

impl Account {
    // No fresh variable is used, and all the room is left.
    pub fn of(full: usize) -> Account
        ensures fresh { result.fresh ≡ 0 }
        ensures room { result.room ≡ full }
    {
        Account {
            fresh: 0,
            room: full,
        }
    }

    // Charges a clause of so many literals for its fresh variables and its price.
    pub fn charge(&mut self, length: usize, price: usize)
        requires fits { self.old.fresh + length < 2 ^ 64 }
        requires paid { price ≤ self.old.room }
        ensures fresh { self.new.fresh ≡ self.old.fresh + (length - 3) }
        ensures room { self.new.room + price ≡ self.old.room }
    {
        self.fresh += length.saturating_sub(3);
        self.room -= price;
    }
}
