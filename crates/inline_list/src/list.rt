// A list in an array: the first `count` of its places are taken.
ghost use Rattle.std.specs.Prelude.{◌≡◌, ◌≤◌, length};

use std::alloc::AllocError;
use std::mem;

pub struct InlineList<T: Copy, const N: usize> {
    places: [T; N],
    count: usize,
    ghost whole: { length places ≡ N },
    ghost few: { count ≤ N },
}

// Kept: tried `#[derive(Clone, Copy)]`, which the check refuses for a struct with a type parameter and ghost fields.
impl<T: Copy, const N: usize> Copy for InlineList<T, N> {}

impl<T: Copy, const N: usize> Clone for InlineList<T, N> {
    ghost is_clone = { λ from to. to ≡ from };

    ghost is_infallible = { λ _. Unit {0} };

    fn clone(&self) -> Result<InlineList<T, N>, AllocError> {
        Ok(*self)
    }
}

// Why a value is not taken: the list has no place left.
#[derive(Clone, Copy, PartialEq, Eq, Debug)]
pub struct Full;

impl<T: Copy, const N: usize> InlineList<T, N> {
    ghost use Rattle.std.specs.Prelude.{◌≡◌, ◌++◌, ◌∷◌, [], length, is_ok, nat_lt, nat_le, take, ◌≤◌, if◌then◌else◌, slice_set, IfOk};
    ghost use Rattle.std.specs.List.{slice_get};
    ghost use Rattle.inline_list.specs.Listed.{listed, places_of};

    // No value; the filler stands in the places that are not taken.
    pub fn none(filler: T) -> Self
        ensures { listed result ≡ [] }
    {
        InlineList {
            places: [filler; N],
            count: 0,
        }
    }

    // These values; the filler stands in the places behind them.
    pub fn of(items: &[T], filler: T) -> Result<Self, Full>
        ensures room { is_ok result ≡ nat_le (length items.now) N }
        ensures listed { IfOk result (λ list. listed list ≡ items.now) }
    {
        let count = items.len();
        if count > N {
            return Err(Full);
        }
        let mut places = [filler; N];
        let taken = &mut places[..count];
        taken.copy_from_slice(items);
        Ok(InlineList { places, count })
    }

    // Adds a value at the end.
    pub fn push(&mut self, item: T) -> Result<(), Full>
        ensures room { is_ok result ≡ nat_lt (length (listed self.old)) N }
        ensures after { listed self.new ≡ (if is_ok result then listed self.old ++ item ∷ [] else listed self.old) }
    {
        let at = self.count;
        if at >= N {
            return Err(Full);
        }
        self.places[at] = item;
        self.count = at + 1;
        Ok(())
    }

    // No value is left.
    pub fn clear(&mut self)
        ensures { listed self.new ≡ [] }
    {
        self.count = 0;
    }

    // How many values there are.
    pub fn len(&self) -> usize
        ensures { result ≡ length (listed self.now) }
    {
        self.as_slice().len()
    }

    // The values, in order.
    pub fn as_slice(&self) -> &[T]
        ensures { result.now ≡ listed self.now }
    {
        &self.places[..self.count]
    }

    // Every place of the list: its values first, and behind them whatever stands in the places that are not taken.
    pub fn places(&self) -> &[T; N]
        ensures all { result.now ≡ places_of self.now }
        ensures whole { length (places_of self.now) ≡ N }
        ensures front { take (length (listed self.now)) (places_of self.now) ≡ listed self.now }
    {
        &self.places
    }

    // Puts a value in the place of another, counted from 0, and gives back what stood there; none where there is no such place.
    pub fn replace(&mut self, at: usize, item: T) -> Option<T>
        ensures before { result ≡ slice_get (listed self.old) at }
        ensures after { listed self.new ≡ slice_set (listed self.old) at item }
    {
        if at >= self.count {
            return None;
        }
        Some(mem::replace(&mut self.places[at], item))
    }

    // The first of these values, so many.
    pub fn first(values: [T; N], count: usize) -> Self
        requires { count ≤ N }
        ensures { listed result ≡ take count values }
    {
        InlineList {
            places: values,
            count,
        }
    }
}
