ghost use Rattle.std.specs.Prelude.{◌≡◌, ◌≤◌, [], length, min};

use bearing::{Fault, Layer, Refusal};

// A list over places that the caller lends: at most MAX elements, and no more than there are places.
#[derive(Drop)]
pub struct Listing<'a, T: Copy, const MAX: usize> {
    places: &'a mut [T],
    count: usize,
    ghost most: { count ≤ MAX },
    ghost within: { count ≤ length places.now },
}

impl<'a, T: Copy, const MAX: usize> Listing<'a, T, MAX> {
    ghost use Rattle.listing.specs.Lists.{listed, with_items, pushed, push_answer, popped, pop_answer};

    // An empty list.
    pub fn new(places: &'a mut [T]) -> Self
        ensures places { result.places ≡ places.entry }
        ensures count { result.count ≡ 0 }
        ensures list { listed result ≡ record { items = []; capacity = min MAX (length places.old) } }
    {
        Listing { places, count: 0 }
    }

    pub fn len(&self) -> usize
        ensures value { result ≡ length (listed self.now).items }
        ensures few { result ≤ MAX }
    {
        self.as_slice().len()
    }

    // One element more at the end.
    pub fn push(&mut self, x: T) -> Result<(), Fault>
        ensures answer { result ≡ push_answer (listed self.old).capacity (listed self.old).items }
        ensures list { listed self.new ≡ with_items (listed self.old) (pushed (listed self.old).capacity (listed self.old).items x) }
    {
        if self.count >= MAX || self.count >= self.places.len() {
            return Err(Layer::Bridge.refuses(Refusal::NoPlace));
        }
        self.places[self.count] = x;
        self.count += 1;
        Ok(())
    }

    // The last element goes, and its place serves again.
    pub fn take_off(&mut self) -> Result<(), Fault>
        ensures answer { result ≡ pop_answer (listed self.old).items }
        ensures list { listed self.new ≡ with_items (listed self.old) (popped (listed self.old).items) }
    {
        if self.count == 0 {
            return Err(Layer::Bridge.refuses(Refusal::NothingHung));
        }
        self.count -= 1;
        Ok(())
    }

    // No element is left, and every place is free.
    pub fn clear(&mut self)
        ensures list { listed self.new ≡ with_items (listed self.old) [] }
        ensures few { (listed self.old).capacity ≤ MAX }
    {
        self.count = 0;
    }

    pub fn as_slice(&self) -> &[T]
        ensures items { result.now ≡ (listed self.now).items }
        ensures placed { length result.now ≤ (listed self.now).capacity }
        ensures few { (listed self.now).capacity ≤ MAX }
    {
        &self.places[..self.count]
    }
}
