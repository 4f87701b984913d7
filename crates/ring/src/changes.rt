ghost use Rattle.std.specs.Prelude.{◌≡◌, ℕ, ◌<◌, [], ◌∷◌, ◌++◌, length, slice_index_or, slice_set};
ghost use Rattle.ring.specs.Model.{first_slot, items, limit};

use crate::{Blanks, Ring, steps};

// A step is lent the slots, so each of these reads the numbers first. Each promises that the limit stays: what a call
// leaves alone is a promise of its own.
impl<'a, T> Ring<'a, T> {
    // Takes the first element out, and leaves `blank` in its slot.
    pub fn pop_front(&mut self, blank: T) -> T
        requires { 0 < length (items self.old) }
        ensures items { items self.old ≡ result ∷ items self.new }
        ensures slot { self.new.slots.now ≡ first_slot self.old blank }
        ensures limit { limit self.new ≡ limit self.old }
    {
        let head = self.head;
        let (first, next) = steps::take_front(self.slots, head, blank);
        self.head = next;
        self.len -= 1;
        first
    }

    // Puts `x` in the place of the element `i`, and hands that out.
    pub fn replace(&mut self, i: usize, x: T) -> T
        requires { i < length (items self.old) }
        ensures value { result ≡ slice_index_or (items self.old) i result }
        ensures items { items self.new ≡ slice_set (items self.old) i x }
        ensures limit { limit self.new ≡ limit self.old }
    {
        let head = self.head;
        steps::exchange(self.slots, head, i, x)
    }
}

impl<'a, T: Drop> Ring<'a, T> {
    // Puts `x` behind the last element.
    pub fn push_back(&mut self, x: T)
        requires { length (items self.old) < limit self.old }
        ensures items { items self.new ≡ items self.old ++ x ∷ [] }
        ensures limit { limit self.new ≡ limit self.old }
    {
        let head = self.head;
        let len = self.len;
        steps::put_back(self.slots, head, len, x);
        self.len = len + 1;
    }

    // Puts `x` before the first element.
    pub fn push_front(&mut self, x: T)
        requires { length (items self.old) < limit self.old }
        ensures items { items self.new ≡ x ∷ items self.old }
        ensures limit { limit self.new ≡ limit self.old }
    {
        let head = self.head;
        self.head = steps::put_front(self.slots, head, x);
        self.len += 1;
    }

    // Empties the ring, and leaves a blank in each of its slots.
    pub fn clear<B: Blanks<T>>(&mut self)
        ensures blanks { (k : ℕ) (d : T) → k < limit self.old → B.Blanks.empty (slice_index_or self.new.slots.now k d) }
        ensures items { items self.new ≡ [] }
        ensures limit { limit self.new ≡ limit self.old }
    {
        steps::blank_all::<T, B>(self.slots);
        self.head = 0;
        self.len = 0;
    }
}
