ghost use Rattle.std.specs.Prelude.{◌≡◌, ◌≤◌, length, MatchResult};
ghost use Rattle.store.specs.Faults.{Short, Unwritten, not_enough_bytes};
ghost use Rattle.ring.specs.Model.{items};
ghost use Rattle.rules.specs.Taking.{form_of, taken_in};
ghost use Rattle.taking.specs.Rings.{Copied, Left, bytes_in};

use crate::IoBufs;
use iobuf::chunk::Chunk;
use store::fault::{Fault, Layer};
use store::space::Store;
use taking::{advance, copy};

impl<'a, K: Chunk> IoBufs<'a, K> {
    // Drops the first `n` bytes.
    pub fn advance(&mut self, n: usize) -> Result<(), Fault>
        ensures { MatchResult result (λ _. (n ≤ bytes_in K.Chunk self.old.ring) × Left K.Chunk (taken_in (form_of (length (items self.old.ring))) n) self.old.ring self.new.ring) (λ f. Short n (bytes_in K.Chunk self.old.ring) (not_enough_bytes Layer.Container n (bytes_in K.Chunk self.old.ring)) f × (self.new.ring ≡ self.old.ring)) }
    {
        advance::advance(&mut self.ring, n)
    }

    // Copies the first `n` bytes to the first `n` places of `out`, and takes them.
    pub fn copy_to_bytes(&mut self, store: &Store, n: usize, out: &mut [u8]) -> Result<usize, Fault>
        ensures { MatchResult result (λ k. (k ≡ n) × Copied K.Chunk n store.now self.old.ring self.new.ring out.old out.new) (λ f. Unwritten Layer.Container n (bytes_in K.Chunk self.old.ring) (length out.old) f × (self.new.ring ≡ self.old.ring) × (out.new ≡ out.old)) }
    {
        copy::copy_to_bytes(&mut self.ring, store, n, out)
    }
}
