ghost use Rattle.container_calls.specs.Makings.{LawOfRuns};
ghost use Rattle.container_calls.specs.Performed.{Performed};

use crate::answer::Answer;
use crate::call::Call;
use crate::steps;
use bufs::IoBufs;
use iobuf::chunk::{Chunk, SharedChunk};
use store::space::Store;

// Does nothing: its contract names the laws of runs, which the calls below pass on to their callers.
pub(crate) fn laws<K: SharedChunk>()
    ensures { LawOfRuns K.Chunk }
{}

// Performs one call on a container. `performed` says what this call answered and left, by the rules; `laws` what holds
// after every list of such calls on every container of the kind.
pub fn perform<K: SharedChunk>(
    call: Call<K>,
    bufs: &mut IoBufs<'_, K>,
    store: &Store,
    target: &mut IoBufs<'_, K>,
    out: &mut [u8],
) -> Answer
    ensures performed { Performed K.Chunk call store.now result bufs.old.ring bufs.new.ring target.old.ring target.new.ring out.old out.new }
    ensures laws { LawOfRuns K.Chunk }
{
    laws::<K>();
    // A call is a value, since lines of text say it and the laws speak of lists of them.
    match call {
        Call::Append(chunk) => steps::append(bufs, chunk),
        Call::Prepend(chunk) => steps::prepend(bufs, chunk),
        Call::Advance(n) => steps::advance(bufs, n),
        Call::SplitTo(n) => steps::split_to(bufs, n, target),
        Call::CopyToBytes(n) => steps::copy_to_bytes(bufs, store, n, out),
    }
}
