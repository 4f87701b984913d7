// The elements of a ring one after another.
ghost use Rattle.std.specs.Prelude.{◌≡◌, length};
ghost use Rattle.std.specs.Iterator.{at_most};
ghost use Rattle.std.specs.Map.Iter.{TakesFirst, ShowsInOrder, deref};
ghost use Rattle.ring.specs.Model.{items};

use crate::{Ring, steps};
use std::marker::Model;

// An iterator over the elements of a ring, seen as the list of those that are still to come.
#[derive(Drop)]
pub struct Iter<'a, T> {
    front: &'a [T],
    behind: &'a [T],
}

impl<'a, T> Model for Iter<'a, T> {
    ghost use Rattle.std.specs.Prelude.{◌+◌, ◌≤◌, List, ◌++◌, length};
    ghost use Rattle.store.specs.Sizes.{chunk_limit};

    ghost Value = { List T };

    ghost view = { λ i. i.front.now ++ i.behind.now };

    ghost invariant = { λ i. length i.front.now + length i.behind.now ≤ chunk_limit };
}

impl<'a, T> Ring<'a, T> {
    // The elements, from the first to the last.
    pub fn iter(&self) -> Iter<'_, T>
        ensures rest { result ≡ items self.now }
        ensures runs { ShowsInOrder (deref {X = T}) }
    {
        let slots = &*self.slots;
        let (front, behind) = steps::parts(slots, self.head, self.len);
        Iter { front, behind }
    }
}

impl<'a, T> Iterator for Iter<'a, T> {
    type Item = &'a T;

    ghost next_gives = { TakesFirst deref };

    ghost remaining = { λ i. at_most (length i) };

    fn next(&mut self) -> Option<&'a T> {
        if let Some((first, rest)) = self.front.split_first() {
            self.front = rest;
            return Some(first);
        }
        let (first, rest) = self.behind.split_first()?;
        self.behind = rest;
        Some(first)
    }
}
