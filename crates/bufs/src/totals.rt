ghost use Rattle.std.specs.Prelude.{◌≡◌, ◌<◌, ◌≤◌, min, [], length, MatchOption, slice_index_or};
ghost use Rattle.std.specs.Map.Iter.{ShowsInOrder, deref};
ghost use Rattle.store.specs.Sizes.{chunk_limit};
ghost use Rattle.store.specs.declared.space.Store.{Store};
ghost use Rattle.ring.specs.Model.{items, limit};
ghost use Rattle.rules.specs.Chunks.{remaining, capacity, writable};
ghost use Rattle.taking.specs.Rings.{bytes_in, values};

use crate::IoBufs;
use iobuf::chunk::Chunk;
use ring::Ring;
use ring::iter::Iter;
use taking::totals;

impl<'a, K: Chunk> IoBufs<'a, K> {
    // An empty container. What the slots held does not matter.
    pub fn new(slots: &'a mut [K]) -> IoBufs<'a, K>
        ensures chunks { items result.ring ≡ [] }
        ensures limit { limit result.ring ≡ min chunk_limit (length slots.old) }
    {
        let ring = Ring::new(slots);
        IoBufs { ring }
    }

    // How many chunks there are.
    pub fn chunk_count(&self) -> usize
        ensures { result ≡ length (items self.now.ring) }
    {
        totals::chunk_count(&self.ring)
    }

    // How many there can be.
    pub fn limit(&self) -> usize
        ensures { result ≡ limit self.now.ring }
    {
        self.ring.limit()
    }

    // The chunk `i`, counted from the front, or none.
    pub fn nth(&self, i: usize) -> Option<&K>
        ensures { MatchOption result (length (items self.now.ring) ≤ i) (λ x. (i < length (items self.now.ring)) × (x.now ≡ slice_index_or (items self.now.ring) i x.now)) }
    {
        if i >= self.ring.len() {
            return None;
        }
        Some(self.ring.at(i))
    }

    // The chunks, from the first to the last.
    pub fn iter(&self) -> Iter<'_, K>
        ensures chunks { result ≡ items self.now.ring }
        ensures runs { ShowsInOrder (deref {X = K}) }
    {
        self.ring.iter()
    }

    // How many bytes can be read.
    pub fn remaining(&self) -> usize
        ensures sizes { result ≡ bytes_in K.Chunk self.now.ring }
        ensures bytes { (s : Store) → result ≡ remaining (values K.Chunk s self.now.ring) }
    {
        totals::remaining(&self.ring)
    }

    // The same by its other name.
    pub fn len(&self) -> usize
        ensures { (s : Store) → result ≡ remaining (values K.Chunk s self.now.ring) }
    {
        totals::len(&self.ring)
    }

    // How many bytes the chunks could hold.
    pub fn capacity(&self) -> usize
        ensures { (s : Store) → result ≡ capacity (values K.Chunk s self.now.ring) }
    {
        totals::capacity(&self.ring)
    }

    // How many bytes can be written.
    pub fn remaining_mut(&self) -> usize
        ensures { (s : Store) → result ≡ writable (values K.Chunk s self.now.ring) }
    {
        totals::remaining_mut(&self.ring)
    }
}
