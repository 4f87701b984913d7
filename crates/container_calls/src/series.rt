// A list of calls, performed one after another. What a caller lends stays apart: a struct of the borrows would have to
// promise after each call that they are still the same.
ghost use Rattle.std.specs.Prelude.{◌≡◌, ◌+◌, ◌≤◌, min, length, MatchResult, OnOk};
ghost use Rattle.store.specs.Faults.{Short, output_too_short};
ghost use Rattle.store.specs.Sizes.{chunk_limit};
ghost use Rattle.ring.specs.Model.{limit};
ghost use Rattle.rules.specs.Chunks.{joined};
ghost use Rattle.runs.specs.Calls.{handed, step};
ghost use Rattle.taking.specs.Rings.{values};
ghost use Rattle.container_calls.specs.Logs.{Logged};
ghost use Rattle.container_calls.specs.Makings.{LawOfRuns};
ghost use Rattle.container_calls.specs.Performed.{Stepped, step_of};
ghost use Rattle.container_calls.specs.Series.{AlongTheLine, CopiedWithin, Series, copied_bytes, steps_of};

use crate::answer::Answer;
use crate::call::Call;
use crate::log::Log;
use crate::perform::{laws, perform};
use bufs::IoBufs;
use iobuf::chunk::{Chunk, SharedChunk};
use store::ask;
use store::fault::{Fault, Layer};
use store::space::Store;
use store::space::calls::pour;

impl Log<'_> {
    // Writes the bytes of a share behind those that there are.
    fn share<K: Chunk>(&mut self, share: &mut IoBufs<'_, K>, store: &Store)
        ensures { Logged (joined (values K.Chunk store.now share.old.ring)) self.old self.new }
    {
        let at = self.len;
        let bytes = &mut *self.bytes;
        let n = share.remaining().min(bytes.len() - at);
        let _ = share.copy_to_bytes(store, n, &mut bytes[at..]);
        self.len = at + n;
    }

    // Writes bytes behind those that there are.
    fn write(&mut self, more: &[u8])
        ensures { Logged more.now self.old self.new }
    {
        let at = self.len;
        let bytes = &mut *self.bytes;
        self.len = at + pour(&mut bytes[at..], more);
    }
}

// The bytes that were copied out.
fn copied(answer: Answer, out: &[u8]) -> &[u8]
    requires { CopiedWithin answer out.now }
    ensures { result.now ≡ copied_bytes answer out.now }
{
    match answer {
        Ok(Some(count)) => &out[0..count],
        Ok(None) | Err(_) => &[],
    }
}

// One call of a list, with an empty target over the slots. What it hands out goes into the log.
fn turn<K: SharedChunk>(
    call: Call<K>,
    bufs: &mut IoBufs<'_, K>,
    store: &Store,
    slots: &mut [K],
    out: &mut [u8],
    log: &mut Log<'_>,
) -> Answer
    ensures container { Stepped K.Chunk (λ s. step_of K.Chunk (min chunk_limit (length slots.old)) 0 (length out.old) s call) result bufs.old.ring bufs.new.ring }
    ensures log { Logged (handed (step (limit bufs.old.ring) (step_of K.Chunk (min chunk_limit (length slots.old)) 0 (length out.old) store.now call) (values K.Chunk store.now bufs.old.ring)).0) log.old log.new }
{
    let mut target = IoBufs::new(slots);
    let answer = perform(call, bufs, store, &mut target, out);
    log.share(&mut target, store);
    log.write(copied(answer, out));
    answer
}

// The calls one after another: notes each answer, and in the log what was handed out.
fn in_turn<K: SharedChunk>(
    calls: &[Call<K>],
    bufs: &mut IoBufs<'_, K>,
    store: &Store,
    slots: &mut [K],
    out: &mut [u8],
    answers: &mut [Answer],
    log: &mut [u8],
)
    requires { length calls.now ≤ length answers.old }
    ensures series { Series K.Chunk (λ s. steps_of K.Chunk (min chunk_limit (length slots.old)) (length out.old) s calls.now) store.now bufs.old.ring bufs.new.ring answers.old answers.new log.old log.new }
    ensures line { AlongTheLine K.Chunk (steps_of K.Chunk (min chunk_limit (length slots.old)) (length out.old) store.now calls.now) store.now bufs.old.ring bufs.new.ring answers.new log.old log.new }
{
    laws::<K>();
    let mut log = Log { bytes: log, len: 0 };
    // Of places that `zip` went over, a proof would not know what was written there.
    for (i, call) in calls.iter().enumerate() {
        answers[i] = turn(*call, bufs, store, slots, out, &mut log);
    }
}

// Performs a list of calls on a container, one after another: each `split_to` with an empty target over the slots, each
// `copy_to_bytes` with `out`. The answers go to the front of `answers`, which must have a place for each; all the bytes
// that are handed out, share by share and copy by copy, to the front of `log`, as far as it reaches.
pub fn perform_all<K: SharedChunk>(
    calls: &[Call<K>],
    bufs: &mut IoBufs<'_, K>,
    store: &Store,
    slots: &mut [K],
    out: &mut [u8],
    answers: &mut [Answer],
    log: &mut [u8],
) -> Result<(), Fault>
    ensures series { MatchResult result (λ _. (length calls.now ≤ length answers.old) × Series K.Chunk (λ s. steps_of K.Chunk (min chunk_limit (length slots.old)) (length out.old) s calls.now) store.now bufs.old.ring bufs.new.ring answers.old answers.new log.old log.new) (λ f. Short (length calls.now) (length answers.old) (output_too_short Layer.Container (length calls.now) (length answers.old)) f × (bufs.new.ring ≡ bufs.old.ring) × (slots.new ≡ slots.old) × (out.new ≡ out.old) × (answers.new ≡ answers.old) × (log.new ≡ log.old)) }
    ensures line { OnOk result (AlongTheLine K.Chunk (steps_of K.Chunk (min chunk_limit (length slots.old)) (length out.old) store.now calls.now) store.now bufs.old.ring bufs.new.ring answers.new log.old log.new) }
    ensures laws { LawOfRuns K.Chunk }
{
    laws::<K>();
    ask::places(Layer::Container, calls.len(), answers.len())?;
    in_turn(calls, bufs, store, slots, out, answers, log);
    Ok(())
}
