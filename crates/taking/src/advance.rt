// Taking bytes. That there are `n` of them is a fact about two arguments, which no type of one of them can hold.
ghost use Rattle.std.specs.Prelude.{◌≡◌, ◌+◌, ◌≤◌, length, MatchResult, nat_le, nat_lt};
ghost use Rattle.store.specs.Faults.{Short, not_enough_bytes};
ghost use Rattle.ring.specs.Model.{items};
ghost use Rattle.rules.specs.Taking.{form_of, left_in, taken_in};
ghost use Rattle.taking.specs.Rings.{Left, bytes_in};

use crate::totals::remaining;
use iobuf::chunk::Chunk;
use ring::Ring;
use rules::form::Form;
use store::ask;
use store::fault::{Fault, Layer};

// Is a chunk kept? It is while it has bytes, or a tail behind them.
pub fn kept<K: Chunk>(chunk: &K) -> bool
    ensures { result ≡ nat_lt 0 (K.Chunk.size chunk.now + (K.Chunk.tail chunk.now).count) }
{
    chunk.capacity() > 0
}

// Forms one and small: each chunk goes round, advanced until `n` bytes are used up, and comes back if it is still kept.
pub fn advance_small_chunks<K: Chunk>(ring: &mut Ring<'_, K>, n: usize)
    ensures { Left K.Chunk (left_in Form.Small n) ring.old ring.new }
{
    let mut due = n;
    for _ in 0..ring.len() {
        let mut chunk = ring.pop_front(K::blank());
        let k = due.min(chunk.remaining());
        chunk.skip(k);
        due -= k;
        if kept(&chunk) {
            ring.push_back(chunk);
        }
    }
}

// Is a chunk of that size used up, when so many bytes are to be taken?
fn used_up(size: usize, left: usize) -> bool
    ensures { result ≡ nat_le size left }
{
    size <= left
}

// Form many: chunks that are used up go from the front, and the last one stays if it has more.
pub fn advance_chunked_front<K: Chunk>(ring: &mut Ring<'_, K>, n: usize)
    requires { n ≤ bytes_in K.Chunk ring.old }
    ensures { Left K.Chunk (left_in Form.Many n) ring.old ring.new }
{
    let mut left = n;
    while left > 0 {
        let mut chunk = ring.pop_front(K::blank());
        let size = chunk.remaining();
        if used_up(size, left) {
            left -= size;
        } else {
            chunk.skip(left);
            ring.push_front(chunk);
            left = 0;
        }
    }
}

// The form that a number of chunks gives.
pub fn form(count: usize) -> Form
    ensures { result ≡ form_of count }
{
    if count < 2 {
        Form::One
    } else if count < 4 {
        Form::Small
    } else {
        Form::Many
    }
}

// Takes the first `n` bytes, which are there, in the form that is given: a value, chosen once before anything is taken.
pub fn take_in<K: Chunk>(form: Form, ring: &mut Ring<'_, K>, n: usize)
    requires { n ≤ bytes_in K.Chunk ring.old }
    ensures { Left K.Chunk (left_in form n) ring.old ring.new }
{
    match form {
        Form::One | Form::Small => advance_small_chunks(ring, n),
        Form::Many => advance_chunked_front(ring, n),
    }
}

// Takes the first `n` bytes, which are there, by the form that the ring has now.
pub fn consume<K: Chunk>(ring: &mut Ring<'_, K>, n: usize)
    requires { n ≤ bytes_in K.Chunk ring.old }
    ensures { Left K.Chunk (taken_in (form_of (length (items ring.old))) n) ring.old ring.new }
{
    if n == 0 {
        return;
    }
    let form = form(ring.len());
    take_in(form, ring, n);
}

// Drops the first `n` bytes.
pub fn advance<K: Chunk>(ring: &mut Ring<'_, K>, n: usize) -> Result<(), Fault>
    ensures { MatchResult result (λ _. (n ≤ bytes_in K.Chunk ring.old) × Left K.Chunk (taken_in (form_of (length (items ring.old))) n) ring.old ring.new) (λ f. Short n (bytes_in K.Chunk ring.old) (not_enough_bytes Layer.Container n (bytes_in K.Chunk ring.old)) f × (ring.new ≡ ring.old)) }
{
    ask::bytes(Layer::Container, n, remaining(ring))?;
    consume(ring, n);
    Ok(())
}
