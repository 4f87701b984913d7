ghost use Rattle.std.specs.Prelude.{◌≡◌, ◌<◌, min, [], length, slice_index_or};
ghost use Rattle.ring.specs.Model.{items, limit};
ghost use Rattle.store.specs.Sizes.{chunk_limit};

use crate::{Ring, steps};
use store::sizes::CHUNK_LIMIT;

impl<'a, T> Ring<'a, T> {
    // A ring with no elements, in the first of the slots. What they held does not matter.
    pub fn new(slots: &'a mut [T]) -> Ring<'a, T>
        ensures items { items result ≡ [] }
        ensures limit { limit result ≡ min chunk_limit (length slots.old) }
    {
        let n = slots.len().min(CHUNK_LIMIT);
        Ring {
            slots: &mut slots[0..n],
            head: 0,
            len: 0,
        }
    }

    // How many elements it holds.
    pub fn len(&self) -> usize
        ensures { result ≡ length (items self.now) }
    {
        self.len
    }

    // How many it can hold.
    pub fn limit(&self) -> usize
        ensures { result ≡ limit self.now }
    {
        self.slots.len()
    }

    // The element `i`, counted from the front.
    pub fn at(&self, i: usize) -> &T
        requires { i < length (items self.now) }
        ensures { result.now ≡ slice_index_or (items self.now) i result.now }
    {
        let slots = &*self.slots;
        steps::nth(slots, self.head, i)
    }
}
