ghost use Rattle.std.specs.Prelude.{◌≡◌, length};
ghost use Rattle.store.specs.declared.space.Store.{Store};
ghost use Rattle.ring.specs.Model.{items};
ghost use Rattle.rules.specs.Chunks.{remaining, capacity, writable};
ghost use Rattle.taking.specs.Rings.{values, bytes_in};

use iobuf::chunk::Chunk;
use ring::Ring;

// How many bytes can be read.
pub fn remaining<K: Chunk>(ring: &Ring<'_, K>) -> usize
    ensures sizes { result ≡ bytes_in K.Chunk ring.now }
    ensures bytes { (s : Store) → result ≡ remaining (values K.Chunk s ring.now) }
{
    ring.iter().map(|chunk| chunk.remaining()).sum()
}

// The same by its other name.
pub fn len<K: Chunk>(ring: &Ring<'_, K>) -> usize
    ensures { (s : Store) → result ≡ remaining (values K.Chunk s ring.now) }
{
    remaining(ring)
}

// How many chunks there are.
pub fn chunk_count<K: Chunk>(ring: &Ring<'_, K>) -> usize
    ensures { result ≡ length (items ring.now) }
{
    ring.len()
}

// How many bytes the chunks could hold.
pub fn capacity<K: Chunk>(ring: &Ring<'_, K>) -> usize
    ensures { (s : Store) → result ≡ capacity (values K.Chunk s ring.now) }
{
    ring.iter().map(|chunk| chunk.capacity()).sum()
}

// How many bytes can be written.
pub fn remaining_mut<K: Chunk>(ring: &Ring<'_, K>) -> usize
    ensures { (s : Store) → result ≡ writable (values K.Chunk s ring.now) }
{
    ring.iter()
        .map(|chunk| chunk.capacity() - chunk.remaining())
        .sum()
}
