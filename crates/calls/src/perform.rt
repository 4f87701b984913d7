ghost use Rattle.std.specs.Prelude.{◌≡◌, ◌≤◌, IfOk, OnErr};
ghost use Rattle.iobuf.specs.Kinds.{run_bytes};
ghost use Rattle.store.specs.Sizes.{store_size};
ghost use Rattle.calls.specs.Performed.{handed, left, counted, put};

use crate::call::Call;
use iobuf::chunk::{Chunk, SharedChunk};
use iobuf::run::Run;
use store::fault::Fault;
use store::sizes::STORE_SIZE;
use store::space::Store;

// Performs one call on `page`, writes what it hands out to the front of `out`, and says how much that is.
pub fn perform(
    call: Call,
    store: &Store,
    page: &mut Run,
    out: &mut [u8; STORE_SIZE],
) -> Result<usize, Fault>
    ensures answer { result ≡ counted (handed call (run_bytes page.old)) }
    ensures within { IfOk result (λ n. n ≤ store_size) }
    ensures page { run_bytes page.new ≡ left call (run_bytes page.old) }
    ensures refused { OnErr result (page.new ≡ page.old) }
    ensures output { out.new ≡ put (handed call (run_bytes page.old)) out.old }
{
    // A call is a value, since a line of text says it.
    match call {
        Call::Run { byte, count } => {
            *page = Run::new(byte, count)?;
            Ok(0)
        }
        Call::Cut { n } => {
            page.cut(n)?.pour_out(store, out);
            Ok(n)
        }
        Call::Advance { n } => {
            page.advance(n)?;
            Ok(0)
        }
        Call::WriteOut { n } => {
            page.write_out(store, n, out)?;
            Ok(n)
        }
    }
}
