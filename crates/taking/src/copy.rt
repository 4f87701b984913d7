// Copying bytes out. The store, the count and the output go together as the arguments of one call, in the order of the
// Rust. That the bytes and the places are there are facts about two arguments, which no type of one of them can hold.
ghost use Rattle.std.specs.Prelude.{◌≡◌, ◌<◌, ◌≤◌, ◌++◌, length, take, drop, MatchResult};
ghost use Rattle.store.specs.Faults.{Unwritten};
ghost use Rattle.ring.specs.Model.{items};
ghost use Rattle.rules.specs.Chunks.{joined};
ghost use Rattle.rules.specs.Taking.{form_of, copied_in};
ghost use Rattle.taking.specs.Rings.{Copied, Left, bytes_in, first_has, values};

use crate::advance::{consume, form};
use crate::totals::remaining;
use iobuf::chunk::Chunk;
use ring::Ring;
use rules::form::Form;
use store::ask;
use store::fault::{Fault, Layer};
use store::space::Store;

// Writes the first `n` bytes of all chunks to the front of `out`, chunk after chunk.
fn copy_out<K: Chunk>(ring: &Ring<'_, K>, store: &Store, n: usize, out: &mut [u8])
    requires within { n ≤ bytes_in K.Chunk ring.now }
    requires fits { n ≤ length out.old }
    ensures { out.new ≡ take n (joined (values K.Chunk store.now ring.now)) ++ drop n out.old }
{
    let mut at = 0;
    for chunk in ring.iter() {
        chunk.pour_out(store, &mut out[at..n]);
        at += chunk.remaining().min(n - at);
    }
}

// Are `n` bytes, more than 0, just those of the first chunk?
fn first_has<K: Chunk>(ring: &Ring<'_, K>, n: usize) -> bool
    ensures { result ≡ first_has K.Chunk n ring.now }
{
    ring.len() > 0 && n > 0 && ring.at(0).remaining() == n
}

// Writes the first `n` bytes to the front of `out`. The answer is how many, and whether the front chunk must be
// dropped, tail and all: a pair, as it is in the Rust, which this port keeps.
pub fn copy_to_bytes_small_chunks<K: Chunk>(
    ring: &Ring<'_, K>,
    store: &Store,
    n: usize,
    out: &mut [u8],
) -> (usize, bool)
    requires within { n ≤ bytes_in K.Chunk ring.now }
    requires fits { n ≤ length out.old }
    ensures answer { result ≡ (n, first_has K.Chunk n ring.now) }
    ensures output { out.new ≡ take n (joined (values K.Chunk store.now ring.now)) ++ drop n out.old }
{
    copy_out(ring, store, n, out);
    (n, first_has(ring, n))
}

// Writes the first `n` bytes to the front of `out`, from the front chunk alone if it has them.
fn copy_front<K: Chunk>(ring: &Ring<'_, K>, store: &Store, n: usize, out: &mut [u8])
    requires within { n ≤ bytes_in K.Chunk ring.now }
    requires fits { n ≤ length out.old }
    ensures { out.new ≡ take n (joined (values K.Chunk store.now ring.now)) ++ drop n out.old }
{
    if ring.len() > 0 {
        let front = ring.at(0);
        if n <= front.remaining() {
            front.pour_out(store, &mut out[..n]);
            return;
        }
    }
    copy_out(ring, store, n, out);
}

// The same for form many, where the front chunk often has all the bytes. The answer is that pair too.
pub fn copy_to_bytes_chunked<K: Chunk>(
    ring: &Ring<'_, K>,
    store: &Store,
    n: usize,
    out: &mut [u8],
) -> (usize, bool)
    requires within { n ≤ bytes_in K.Chunk ring.now }
    requires fits { n ≤ length out.old }
    ensures answer { result ≡ (n, first_has K.Chunk n ring.now) }
    ensures output { out.new ≡ take n (joined (values K.Chunk store.now ring.now)) ++ drop n out.old }
{
    copy_front(ring, store, n, out);
    let whole = first_has(ring, n);
    (n, whole)
}

// Drops the front chunk.
fn drop_front<K: Chunk>(ring: &mut Ring<'_, K>)
    requires { 0 < length (items ring.old) }
    ensures { Left K.Chunk (drop 1) ring.old ring.new }
{
    let _ = ring.pop_front(K::blank());
}

// Takes the first `n` bytes, which have been copied: the front chunk goes whole, or they are taken by the form. `whole`
// is the yes or no of that pair.
fn take_copied<K: Chunk>(ring: &mut Ring<'_, K>, whole: bool, n: usize)
    requires within { n ≤ bytes_in K.Chunk ring.old }
    requires first { whole ≡ first_has K.Chunk n ring.old }
    ensures { Left K.Chunk (copied_in whole (form_of (length (items ring.old))) n) ring.old ring.new }
{
    if whole {
        drop_front(ring);
    } else {
        consume(ring, n);
    }
}

// Copies the first `n` bytes to the first `n` places of `out`, and takes them. The form is a value, chosen once before
// anything is taken.
pub fn copy_to_bytes<K: Chunk>(
    ring: &mut Ring<'_, K>,
    store: &Store,
    n: usize,
    out: &mut [u8],
) -> Result<usize, Fault>
    ensures { MatchResult result (λ k. (k ≡ n) × Copied K.Chunk n store.now ring.old ring.new out.old out.new) (λ f. Unwritten Layer.Container n (bytes_in K.Chunk ring.old) (length out.old) f × (ring.new ≡ ring.old) × (out.new ≡ out.old)) }
{
    ask::bytes(Layer::Container, n, remaining(ring))?;
    ask::places(Layer::Container, n, out.len())?;
    let (count, whole) = match form(ring.len()) {
        Form::Many => copy_to_bytes_chunked(ring, store, n, out),
        _ => copy_to_bytes_small_chunks(ring, store, n, out),
    };
    take_copied(ring, whole, n);
    Ok(count)
}
