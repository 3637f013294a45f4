// Pseudo-random draws: numbers, and lists of literals.
ghost use Rattle.std.specs.Prelude.{◌≡◌, ◌<◌, ◌≤◌, length};
ghost use Rattle.inline_list.specs.Listed.{listed};

use inline_list::InlineList;

// The literals of a call.
pub type Literals = InlineList<i32, 18>;

// Numbers drawn one after another, and what is made of them.
// Kept: three contracts say that vars is at most 10; it is the number of a script, whose type says it, and no part of the draws.
#[derive(Clone, Copy)]
pub struct Draws {
    pub(crate) seed: u32,
}

impl Draws {
    pub fn pick(&mut self, below: u32) -> u32
        requires { 0 < below }
        ensures { result < below }
    {
        self.seed = self.seed.wrapping_mul(1664525).wrapping_add(1013904223);
        (self.seed >> 8) % below
    }

    // A literal of a variable in use, if there is one.
    fn literal(&mut self, vars: u32) -> i32
        requires { vars ≤ 10 }
    {
        let variable = (self.pick(vars.max(1)) + 1) as i32;
        if self.pick(2) == 0 {
            variable
        } else {
            -variable
        }
    }

    // A literal of no variable in use.
    fn stranger(&mut self, vars: u32) -> i32
        requires { vars ≤ 10 }
    {
        let next = (vars + 1) as i32;
        match self.pick(4) {
            0 => 0,
            1 => next,
            2 => -next,
            _ => i32::MIN,
        }
    }

    // So many literals; one list in eight may have one of no variable in use.
    pub fn literals(&mut self, vars: u32, len: usize) -> Literals
        requires vars { vars ≤ 10 }
        requires len { len ≤ 18 }
        ensures { length (listed result) ≡ len }
    {
        // Kept: all 18 are drawn, so that what is drawn later does not hang on the length.
        let mut places = [0; 18];
        for place in places.iter_mut() {
            *place = self.literal(vars);
        }
        let mut literals = InlineList::first(places, len);
        if self.pick(8) == 0 {
            let at = self.pick(18) as usize;
            let stranger = self.stranger(vars);
            let _ = literals.replace(at, stranger);
        }
        literals
    }

    // The length of a clause: seldom 0, which leaves no row, and half the time at most 4.
    pub fn length(&mut self, longest: usize) -> usize
        ensures few { result ≤ 18 }
        ensures within { result ≤ longest }
    {
        let length = match self.pick(32) {
            0 => 0,
            1..=15 => self.pick(4) as usize + 1,
            _ => self.pick(17) as usize + 1,
        };
        length.min(longest)
    }
}
