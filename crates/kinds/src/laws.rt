ghost use Rattle.container_calls.specs.Makings.{LawOfRuns};
ghost use Rattle.container_calls.specs.Performed.{Performed};
ghost use Rattle.kinds.specs.contracts.rising.calls.RisingChunk.TheImpl.{ghosts as rising_kind};

use crate::rising::Rising;
use bufs::IoBufs;
use container_calls::answer::Answer;
use container_calls::call::Call;
use container_calls::perform::perform;
use store::space::Store;

// Performs one call on a container of this kind. Its contract is that of `perform`, with the laws of runs, at this kind:
// nothing more is proved for it.
pub fn perform_rising(
    call: Call<Rising>,
    bufs: &mut IoBufs<'_, Rising>,
    store: &Store,
    target: &mut IoBufs<'_, Rising>,
    out: &mut [u8],
) -> Answer
    ensures performed { Performed rising_kind call store.now result bufs.old.ring bufs.new.ring target.old.ring target.new.ring out.old out.new }
    ensures laws { LawOfRuns rising_kind }
{
    perform(call, bufs, store, target, out)
}
