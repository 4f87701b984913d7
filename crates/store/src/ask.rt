ghost use Rattle.std.specs.Prelude.{◌≡◌, ◌<◌, ◌≤◌, MatchResult};
ghost use Rattle.store.specs.Faults.{Short, no_slot, no_store_room, not_empty, not_enough_bytes, output_too_short, run_too_long, told};
ghost use Rattle.store.specs.Sizes.{store_size};

use crate::fault::{Fault, Layer, Refusal};
use crate::sizes::STORE_SIZE;

// Are there as many as are asked for? If not, this is refused.
fn enough(refusal: Refusal, layer: Layer, asked: usize, available: usize) -> Result<(), Fault>
    ensures { MatchResult result (λ _. asked ≤ available) (λ f. (available < asked) × (f ≡ told refusal layer asked available)) }
{
    if asked > available {
        return Err(Fault {
            refusal,
            layer,
            asked,
            available,
        });
    }
    Ok(())
}

// Are there `n` bytes, of `remaining`?
pub fn bytes(called: Layer, n: usize, remaining: usize) -> Result<(), Fault>
    ensures { MatchResult result (λ _. n ≤ remaining) (Short n remaining (not_enough_bytes called n remaining)) }
{
    enough(Refusal::NotEnoughBytes, called, n, remaining)
}

// Has the output, of `places`, the `n` that are to be written?
pub fn places(called: Layer, n: usize, places: usize) -> Result<(), Fault>
    ensures { MatchResult result (λ _. n ≤ places) (Short n places (output_too_short called n places)) }
{
    enough(Refusal::OutputTooShort, called, n, places)
}

// Is the container that is to be filled empty? It holds `held` chunks. What is asked for here is the smaller number, so
// `enough` would not be plainer.
pub fn empty(held: usize) -> Result<(), Fault>
    ensures { MatchResult result (λ _. held ≤ 0) (Short held 0 (not_empty held)) }
{
    if held > 0 {
        return Err(Fault {
            refusal: Refusal::NotEmpty,
            layer: Layer::Container,
            asked: 0,
            available: held,
        });
    }
    Ok(())
}

// May `chunks` stand in a container of that limit?
pub fn slots(chunks: usize, limit: usize) -> Result<(), Fault>
    ensures { MatchResult result (λ _. chunks ≤ limit) (Short chunks limit (no_slot chunks limit)) }
{
    enough(Refusal::NoSlot, Layer::Container, chunks, limit)
}

// Has the store `n` bytes, of `free` that are not given out?
pub fn store_room(n: usize, free: usize) -> Result<(), Fault>
    ensures { MatchResult result (λ _. n ≤ free) (Short n free (no_store_room n free)) }
{
    enough(Refusal::NoStoreRoom, Layer::Store, n, free)
}

// May a run be `count` bytes long?
pub fn run_length(count: usize) -> Result<(), Fault>
    ensures { MatchResult result (λ _. count ≤ store_size) (Short count store_size (run_too_long count)) }
{
    enough(Refusal::RunTooLong, Layer::Chunk, count, STORE_SIZE)
}
