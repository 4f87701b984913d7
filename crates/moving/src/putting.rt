ghost use Rattle.std.specs.Prelude.{◌≡◌, ◌+◌, ◌<◌, ◌≤◌, true, [], ◌∷◌, ◌++◌, length, filter, MatchResult};
ghost use Rattle.store.specs.Faults.{Short, no_slot};
ghost use Rattle.ring.specs.Model.{items, limit};
ghost use Rattle.rules.specs.Putting.{put};
ghost use Rattle.taking.specs.Rings.{kept_of};
ghost use Rattle.moving.specs.Putting.{Filled, PutIn};

use iobuf::chunk::{Chunk, SharedChunk};
use ring::Ring;
use store::ask;
use store::fault::Fault;
use taking::advance::kept;

// How many of the chunks are kept. The chain of `filter` and `count` would take half as long again.
fn count_kept<K: Chunk>(given: &[K]) -> usize
    ensures { result ≡ length (filter (kept_of K.Chunk) given.now) }
{
    let mut count = 0;
    for candidate in given {
        if kept(candidate) {
            count += 1;
        }
    }
    count
}

// Fills an empty ring with those of the chunks that are kept, for which it has slots.
fn fill<K: SharedChunk>(ring: &mut Ring<'_, K>, given: &[K])
    requires empty { length (items ring.old) ≤ 0 }
    requires fits { length (filter (kept_of K.Chunk) given.now) ≤ limit ring.old }
    ensures items { items ring.new ≡ filter (kept_of K.Chunk) given.now }
    ensures limit { limit ring.new ≡ limit ring.old }
{
    for chunk in given {
        if kept(chunk) {
            ring.push_back(*chunk);
        }
    }
}

// Fills an empty ring with those of the chunks that are kept, in their order.
pub fn from_chunks<K: SharedChunk>(ring: &mut Ring<'_, K>, given: &[K]) -> Result<(), Fault>
    ensures { Filled K.Chunk given.now result ring.old ring.new }
{
    ask::empty(ring.len())?;
    ask::slots(count_kept(given), ring.limit())?;
    fill(ring, given);
    Ok(())
}

// Is there a slot for one chunk more?
fn has_slot<K>(ring: &Ring<'_, K>) -> Result<(), Fault>
    ensures { MatchResult result (λ _. length (items ring.now) + 1 ≤ limit ring.now) (Short (length (items ring.now) + 1) (limit ring.now) (no_slot (length (items ring.now) + 1) (limit ring.now))) }
{
    ask::slots(ring.len() + 1, ring.limit())
}

// Puts a chunk behind the others. One that is not kept is accepted, and nothing happens.
pub fn append<K: SharedChunk>(ring: &mut Ring<'_, K>, chunk: K) -> Result<(), Fault>
    ensures { PutIn K.Chunk chunk (items ring.old ++ chunk ∷ []) result ring.old ring.new }
{
    if !kept(&chunk) {
        return Ok(());
    }
    has_slot(ring)?;
    ring.push_back(chunk);
    Ok(())
}

// Puts a chunk in front of the others. One that is not kept is accepted, and nothing happens. One function for both ends
// would take the end as a flag, or a closure whose effect each contract would have to spell out.
pub fn prepend<K: SharedChunk>(ring: &mut Ring<'_, K>, chunk: K) -> Result<(), Fault>
    ensures { PutIn K.Chunk chunk (chunk ∷ items ring.old) result ring.old ring.new }
{
    if !kept(&chunk) {
        return Ok(());
    }
    has_slot(ring)?;
    ring.push_front(chunk);
    Ok(())
}
