#![tactic(auto)]

ghost use Rattle.ring.specs.Slots.{Lies};

mod changes;
pub mod iter;
mod reads;
mod steps;

// A list in slots that a caller lends, since no container uses the heap: `len` elements, the first in the slot `head` and
// each of the others in the next one, around the end.
#[derive(Drop)]
pub struct Ring<'a, T> {
    slots: &'a mut [T],
    head: usize,
    len: usize,
    ghost lies: { Lies slots.now head len },
}

// Gives values for slots that hold no element. It is no trait of `T` itself, so that a crate can give blanks of types
// that it does not declare.
pub trait Blanks<T> {
    // which values are blank
    ghost empty: { T → Type 0 };

    fn blank() -> T
        ensures { empty result };
}
