ghost use Rattle.std.specs.Prelude.{◌≡◌, ℕ, ◌+◌, ◌≤◌, [], length, MatchResult};
ghost use Rattle.store.specs.Faults.{Short, Unwritten, not_enough_bytes};
ghost use Rattle.store.specs.Sizes.{store_size};
ghost use Rattle.iobuf.specs.Values.{Value, Tail, Advanced, Written, Cut, advanced, first, flat, no_tail, over};
ghost use Rattle.store.specs.declared.fault.Layer.{Layer};
ghost use Rattle.store.specs.declared.space.Store.{Store};

use store::ask;
use store::fault::{Fault, Layer};
use store::space::Store;

// A kind of chunk: bytes that can be read, and behind them a tail that can be written.
pub trait Chunk: Sized + Drop {
    // what a chunk is worth in a store
    ghost value: { Store → Self → Value };

    // how many bytes it has, and its tail, in whatever store
    ghost size: { Self → ℕ };

    ghost tail: { Self → Tail };

    // How many bytes it has.
    fn remaining(&self) -> usize
        ensures { result ≡ size self.now };

    // How many bytes it has, with those that can be written behind them.
    fn capacity(&self) -> usize
        ensures { result ≡ size self.now + (tail self.now).count };

    // Copies its bytes to the front of `out`, as far as both reach.
    fn pour_out(&self, store: &Store, out: &mut [u8])
        ensures { out.new ≡ over (value store.now self.now).bytes out.old };

    // Drops the first `n` bytes, or all where there are fewer.
    fn skip(&mut self, n: usize)
        ensures { (s : Store) → value s self.new ≡ advanced n (value s self.old) };

    // The chunk with no bytes and no tail.
    fn blank() -> Self
        ensures { (s : Store) → value s result ≡ flat [] };

    // Are there `n` bytes?
    fn has(&self, n: usize) -> Result<(), Fault>
        ensures { MatchResult result (λ _. n ≤ size self.now) (Short n (size self.now) (not_enough_bytes Layer.Chunk n (size self.now))) }
    {
        ask::bytes(Layer::Chunk, n, self.remaining())
    }

    // Copies the first `n` bytes to the first `n` places of `out`.
    fn write_out(&self, store: &Store, n: usize, out: &mut [u8]) -> Result<(), Fault>
        ensures { MatchResult result (λ _. Written n (value store.now self.now).bytes out.old out.new) (λ f. Unwritten Layer.Chunk n (size self.now) (length out.old) f × (out.new ≡ out.old)) }
    {
        self.has(n)?;
        ask::places(Layer::Chunk, n, out.len())?;
        self.pour_out(store, &mut out[0..n]);
        Ok(())
    }

    // Drops the first `n` bytes.
    fn advance(&mut self, n: usize) -> Result<(), Fault>
        ensures { MatchResult result (λ _. Advanced value size n self.old self.new) (λ f. Short n (size self.old) (not_enough_bytes Layer.Chunk n (size self.old)) f × (self.new ≡ self.old)) }
    {
        self.has(n)?;
        self.skip(n);
        Ok(())
    }

    ghost sized: { (s : Store) (x : Self) → length (value s x).bytes ≡ size x };

    ghost tailed: { (s : Store) (x : Self) → (value s x).tail ≡ tail x };

    ghost bounded: { (x : Self) → size x + (tail x).count ≤ store_size };
}

// A kind that can also be cut. Its chunks have no tail, and may be copied: a refused caller still holds what it gave.
pub trait SharedChunk: Chunk + Copy {
    // The first `n` bytes as a chunk, or all where there are fewer.
    fn first(self, n: usize) -> Self
        ensures { (s : Store) → Self.Chunk.value s result ≡ first n (Self.Chunk.value s self) };

    // Hands out the first `n` bytes as a chunk, and keeps the rest.
    fn cut(&mut self, n: usize) -> Result<Self, Fault>
        ensures { MatchResult result (λ y. Cut Self.Chunk.value Self.Chunk.size Self.Chunk.tail n self.old y self.new) (λ f. Short n (Self.Chunk.size self.old) (not_enough_bytes Layer.Chunk n (Self.Chunk.size self.old)) f × (self.new ≡ self.old)) }
    {
        let front = self.first(n);
        self.advance(n)?;
        Ok(front)
    }

    ghost tailless: { (x : Self) → Self.Chunk.tail x ≡ no_tail };
}
