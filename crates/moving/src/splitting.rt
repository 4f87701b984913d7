ghost use Rattle.std.specs.Prelude.{◌≡◌, ◌+◌, ◌<◌, ◌≤◌, ◌++◌, length, take, drop, nat_lt};
ghost use Rattle.store.specs.Sizes.{chunk_limit};
ghost use Rattle.ring.specs.Model.{items, limit};
ghost use Rattle.rules.specs.Splitting.{Ends, cut_at, fronts, rests, with_piece};
ghost use Rattle.taking.specs.Rings.{bytes_in};
ghost use Rattle.moving.specs.Splitting.{Handed, Split};

use iobuf::chunk::{Chunk, SharedChunk};
use ring::Ring;
use store::ask;
use store::fault::{Fault, Layer};
use taking::totals::remaining;

// Is a chunk of that size longer than what is still to take? Then the search ends at it.
fn longer(size: usize, left: usize) -> bool
    ensures { result ≡ nat_lt left size }
{
    size > left
}

// Where the search for a cut ends: `at` chunks go whole, and `left` bytes of the next are still to take.
#[derive(Clone, Copy)]
struct Border {
    at: usize,
    left: usize,
}

// The search for the border behind `n` bytes: it ends at the first chunk that is longer than what is still to take. It
// counts by hand, since it has to end with a place, and the port keeps the form of a loop that breaks with it.
fn find<K: Chunk>(ring: &Ring<'_, K>, n: usize) -> Border
    ensures found { (result.at, result.left) ≡ cut_at K.Chunk.size n (items ring.now) }
    ensures within { result.at ≤ length (items ring.now) }
{
    let mut i = 0;
    let mut left = n;
    loop {
        if i >= ring.len() {
            break Border { at: i, left };
        }
        let size = ring.at(i).remaining();
        if longer(size, left) {
            break Border { at: i, left };
        }
        left -= size;
        i += 1;
    }
}

impl Border {
    // How many chunks go to the target: those before the border, and the piece if it has bytes.
    fn share(self) -> usize
        requires { self.at ≤ chunk_limit }
        ensures { result ≡ with_piece (self.at, self.left) }
    {
        if self.left > 0 { self.at + 1 } else { self.at }
    }
}

// The first `count` chunks go behind those of another ring.
fn hand_over<K: Chunk>(from: &mut Ring<'_, K>, count: usize, to: &mut Ring<'_, K>)
    requires within { count ≤ length (items from.old) }
    requires fits { length (items to.old) + count ≤ limit to.old }
    ensures gives { items to.new ≡ items to.old ++ take count (items from.old) }
    ensures leaves { items from.new ≡ drop count (items from.old) }
    ensures limits { (limit from.new ≡ limit from.old) × (limit to.new ≡ limit to.old) }
{
    for _ in 0..count {
        let chunk = from.pop_front(K::blank());
        to.push_back(chunk);
    }
}

// The first `n` bytes of the first chunk, which has more, go behind the chunks of another ring.
fn hand_piece<K: SharedChunk>(from: &mut Ring<'_, K>, n: usize, to: &mut Ring<'_, K>)
    requires some { 0 < n }
    requires first { 0 < length (items from.old) }
    requires longer { Ends K.Chunk.size n (items from.old) }
    requires fits { length (items to.old) < limit to.old }
    ensures { Handed K.Chunk (fronts n) (rests n) from.old from.new to.old to.new }
{
    let mut chunk = from.pop_front(K::blank());
    to.push_back(chunk.first(n));
    chunk.skip(n);
    from.push_front(chunk);
}

// The first `n` bytes go to an empty ring: whole chunks up to the border, and then a piece.
fn hand_out<K: SharedChunk>(from: &mut Ring<'_, K>, n: usize, border: Border, to: &mut Ring<'_, K>)
    requires found { cut_at K.Chunk.size n (items from.old) ≡ (border.at, border.left) }
    requires within { n ≤ bytes_in K.Chunk from.old }
    requires empty { length (items to.old) ≤ 0 }
    requires fits { with_piece (border.at, border.left) ≤ limit to.old }
    ensures { Handed K.Chunk (fronts n) (rests n) from.old from.new to.old to.new }
{
    hand_over(from, border.at, to);
    if border.left > 0 {
        hand_piece(from, border.left, to);
    }
}

// Cuts off the first `n` bytes: an empty target gets the chunks that hold them, and the rest stays.
pub fn split_to<K: SharedChunk>(
    ring: &mut Ring<'_, K>,
    n: usize,
    target: &mut Ring<'_, K>,
) -> Result<(), Fault>
    ensures { Split K.Chunk n result ring.old ring.new target.old target.new }
{
    ask::bytes(Layer::Container, n, remaining(ring))?;
    ask::empty(target.len())?;
    let border = find(ring, n);
    ask::slots(border.share(), target.limit())?;
    hand_out(ring, n, border, target);
    Ok(())
}
