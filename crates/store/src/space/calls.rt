ghost use Rattle.std.specs.Prelude.{◌≡◌, ◌+◌, ◌≤◌, min, ◌++◌, length, take, drop, replicate, MatchResult, nat_le};
ghost use Rattle.std.specs.Option.{option_map};
ghost use Rattle.store.specs.Sizes.{store_size};
ghost use Rattle.lists.specs.Parts.{laid};
ghost use Rattle.store.specs.Stretches.{reserved, viewed, fitting};

use super::Store;
use crate::ask;
use crate::fault::Fault;
use crate::sizes::STORE_SIZE;

impl Store {
    // A store of zeros, none of them given out.
    pub fn new() -> Store
        ensures bytes { result.bytes ≡ replicate store_size 0 }
        ensures used { result.used ≡ 0 }
    {
        Store {
            bytes: [0; STORE_SIZE],
            used: 0,
        }
    }

    // Gives out the next `c` bytes, and says where they begin.
    pub fn reserve(&mut self, c: usize) -> Result<usize, Fault>
        ensures value { result ≡ reserved self.old.used c }
        ensures after { MatchResult result (λ p. (self.new.bytes ≡ self.old.bytes) × (self.new.used ≡ p + c)) (λ _. self.new ≡ self.old) }
    {
        let start = self.used;
        ask::store_room(c, STORE_SIZE - start)?;
        self.used = start + c;
        Ok(start)
    }

    // The `n` bytes from `place` on, or none where they do not lie within the store.
    pub fn view(&self, place: usize, n: usize) -> Option<&[u8]>
        ensures { option_map (λ x. x.now) result ≡ viewed place n self.now.bytes }
    {
        if !within(place, n) {
            return None;
        }
        Some(&self.bytes[place..place + n])
    }

    // Pours the front of `s` into the `n` bytes from `place` on, and says how much.
    // A stretch that does not lie within the store takes nothing.
    #[tactic(auto, using(crate::proofs::Pours::laid_outside, crate::proofs::Pours::laid_within))]
    pub fn write(&mut self, place: usize, n: usize, s: &[u8]) -> usize
        ensures count { result ≡ min (length s.now) (fitting place n) }
        ensures bytes { self.new.bytes ≡ laid place (take (fitting place n) s.now) self.old.bytes }
        ensures used { self.new.used ≡ self.old.used }
    {
        if !within(place, n) {
            return 0;
        }
        pour(&mut self.bytes[place..place + n], s)
    }
}

// Do the `n` bytes from `place` on lie within a store? The two numbers stay apart, as callers give them: they may be any.
fn within(place: usize, n: usize) -> bool
    ensures { result ≡ nat_le (place + n) store_size }
{
    place <= STORE_SIZE && n <= STORE_SIZE - place
}

// Copies the front of `s` into the front of `stretch`, as much as fits, and says how much.
pub fn pour(stretch: &mut [u8], s: &[u8]) -> usize
    ensures count { result ≡ min (length s.now) (length stretch.old) }
    ensures after { stretch.new ≡ take result s.now ++ drop result stretch.old }
{
    let n = s.len().min(stretch.len());
    stretch[0..n].copy_from_slice(&s[0..n]);
    n
}
