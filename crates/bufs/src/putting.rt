ghost use Rattle.std.specs.Prelude.{[], ◌∷◌, ◌++◌};
ghost use Rattle.ring.specs.Model.{items};
ghost use Rattle.moving.specs.Putting.{Filled, PutIn};
ghost use Rattle.moving.specs.Splitting.{Split};

use crate::IoBufs;
use iobuf::chunk::{Chunk, SharedChunk};
use moving::{putting, splitting};
use store::fault::Fault;

impl<'a, K: SharedChunk> IoBufs<'a, K> {
    // Fills an empty container with those of the chunks that are kept, in their order.
    pub fn from_chunks(&mut self, given: &[K]) -> Result<(), Fault>
        ensures { Filled K.Chunk given.now result self.old.ring self.new.ring }
    {
        putting::from_chunks(&mut self.ring, given)
    }

    // Puts a chunk behind the others. One that is not kept is accepted, and nothing happens.
    pub fn append(&mut self, chunk: K) -> Result<(), Fault>
        ensures { PutIn K.Chunk chunk (items self.old.ring ++ chunk ∷ []) result self.old.ring self.new.ring }
    {
        putting::append(&mut self.ring, chunk)
    }

    // Puts a chunk in front of the others. One that is not kept is accepted, and nothing happens.
    pub fn prepend(&mut self, chunk: K) -> Result<(), Fault>
        ensures { PutIn K.Chunk chunk (chunk ∷ items self.old.ring) result self.old.ring self.new.ring }
    {
        putting::prepend(&mut self.ring, chunk)
    }

    // Cuts off the first `n` bytes: an empty target gets the chunks that hold them, and the rest stays.
    pub fn split_to(&mut self, n: usize, target: &mut IoBufs<'_, K>) -> Result<(), Fault>
        ensures { Split K.Chunk n result self.old.ring self.new.ring target.old.ring target.new.ring }
    {
        splitting::split_to(&mut self.ring, n, &mut target.ring)
    }
}
