// Each call as a step that answers; a refusal is passed up as it is.
ghost use Rattle.runs.specs.Calls.{advance, append, prepend};
ghost use Rattle.container_calls.specs.Performed.{Copying, Splitting, Stepped};

use crate::answer::Answer;
use bufs::IoBufs;
use iobuf::chunk::{Chunk, SharedChunk};
use store::space::Store;

pub(crate) fn append<K: SharedChunk>(bufs: &mut IoBufs<'_, K>, chunk: K) -> Answer
    ensures { Stepped K.Chunk (λ s. append (K.Chunk.value s chunk).bytes) result bufs.old.ring bufs.new.ring }
{
    bufs.append(chunk)?;
    Ok(None)
}

pub(crate) fn prepend<K: SharedChunk>(bufs: &mut IoBufs<'_, K>, chunk: K) -> Answer
    ensures { Stepped K.Chunk (λ s. prepend (K.Chunk.value s chunk).bytes) result bufs.old.ring bufs.new.ring }
{
    bufs.prepend(chunk)?;
    Ok(None)
}

pub(crate) fn advance<K: SharedChunk>(bufs: &mut IoBufs<'_, K>, n: usize) -> Answer
    ensures { Stepped K.Chunk (λ _. advance n) result bufs.old.ring bufs.new.ring }
{
    bufs.advance(n)?;
    Ok(None)
}

pub(crate) fn split_to<K: SharedChunk>(
    bufs: &mut IoBufs<'_, K>,
    n: usize,
    target: &mut IoBufs<'_, K>,
) -> Answer
    ensures { Splitting K.Chunk n result bufs.old.ring bufs.new.ring target.old.ring target.new.ring }
{
    bufs.split_to(n, target)?;
    Ok(None)
}

pub(crate) fn copy_to_bytes<K: SharedChunk>(
    bufs: &mut IoBufs<'_, K>,
    store: &Store,
    n: usize,
    out: &mut [u8],
) -> Answer
    ensures { Copying K.Chunk n store.now result bufs.old.ring bufs.new.ring out.old out.new }
{
    let count = bufs.copy_to_bytes(store, n, out)?;
    Ok(Some(count))
}
