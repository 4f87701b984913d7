ghost use Rattle.std.specs.Prelude.{◌≡◌, [], ◌∷◌, length};
ghost use Rattle.store.specs.declared.space.Store.{Store};
ghost use Rattle.iobuf.specs.Values.{flat};
ghost use Rattle.ring.specs.Model.{items};

use iobuf::buf::{IoBuf, IoBufMut};
use iobuf::chunk::Chunk;
use iobuf::run::Run;
use ring::{Blanks, Ring};
use std::process::Abort;
use std::test::Fail;
use store::fault::Fault;
use store::sizes::CHUNK_LIMIT;
use store::space::Store;

// The blanks of every kind of chunk.
struct OfChunks;

impl<K: Chunk> Blanks<K> for OfChunks {
    ghost empty = { λ x. (s : Store) → K.Chunk.value s x ≡ flat [] };

    fn blank() -> K {
        K::blank()
    }
}

// Goes around the end of three slots at either end of the ring, and uses again each slot that it frees.
fn around<'a, K: Chunk>(slots: &'a mut [K], a: K, b: K, c: K, d: K) -> Ring<'a, K>
    requires { length slots.old ≡ 3 }
    ensures { items result ≡ c ∷ d ∷ a ∷ [] }
{
    let mut ring = Ring::new(slots);
    ring.push_back(a);
    ring.push_back(b);
    ring.push_front(c); // c a b: c lies in the last slot
    let c = ring.pop_front(K::blank());
    ring.push_back(c); // a b c
    let a = ring.pop_front(K::blank());
    ring.push_back(a); // b c a: a lies in the first slot
    let b = ring.pop_front(K::blank());
    ring.push_front(b); // b c a again
    let c = ring.replace(1, d);
    let _b = ring.replace(0, c);
    ring
}

// What `around` leaves of chunks of 1, 2, 3 and 4 bytes, and what is left when that is cleared.
fn goes_around<K: Chunk>(rt: &impl Abort, slots: &mut [K], a: K, b: K, c: K, d: K)
    requires { length slots.old ≡ 3 }
{
    let mut ring = around(slots, a, b, c, d);
    assert!(rt; ring.limit() == 3);
    assert!(rt; ring.len() == 3);
    assert!(rt; ring.at(0).capacity() == 3);
    assert!(rt; ring.at(1).capacity() == 4);
    assert!(rt; ring.at(2).capacity() == 1);
    ring.clear::<OfChunks>();
    assert!(rt; ring.len() == 0);
}

fn only_blanks<K: Chunk>(rt: &impl Abort, slots: &[K]) {
    for chunk in slots {
        assert!(rt; chunk.capacity() == 0);
    }
}

// A chunk of `n` bytes that can all be read.
fn readable(store: &mut Store, n: usize) -> Result<IoBuf, Fault> {
    let mut chunk = IoBufMut::reserve(store, n)?;
    chunk.lengthen(n);
    Ok(chunk.freeze())
}

#[test]
fn of_some_slots_or_none(rt: HostRuntime) {
    assert!(rt; Ring::new(&mut [Run::blank(); CHUNK_LIMIT + 1]).limit() == CHUNK_LIMIT);
    assert!(rt; Ring::<Run>::new(&mut []).limit() == 0);
}

#[test]
fn of_runs(rt: HostRuntime) -> Result<(), Fail> {
    let mut slots = [Run::new(9, 9)?, Run::new(9, 9)?, Run::new(9, 9)?];
    goes_around(
        &rt,
        &mut slots,
        Run::new(1, 1)?,
        Run::new(2, 2)?,
        Run::new(3, 3)?,
        Run::new(4, 4)?,
    );
    only_blanks(&rt, &slots);
    Ok(())
}

#[test]
fn of_shared_chunks(rt: HostRuntime) -> Result<(), Fail> {
    let mut store = Store::new();
    let mut slots = [IoBuf::blank(), IoBuf::blank(), IoBuf::blank()];
    let a = readable(&mut store, 1)?;
    let b = readable(&mut store, 2)?;
    let c = readable(&mut store, 3)?;
    let d = readable(&mut store, 4)?;
    goes_around(&rt, &mut slots, a, b, c, d);
    only_blanks(&rt, &slots);
    Ok(())
}

#[test]
fn of_writable_chunks(rt: HostRuntime) -> Result<(), Fail> {
    let mut store = Store::new();
    let mut slots = [IoBufMut::blank(), IoBufMut::blank(), IoBufMut::blank()];
    let a = IoBufMut::reserve(&mut store, 1)?;
    let b = IoBufMut::reserve(&mut store, 2)?;
    let c = IoBufMut::reserve(&mut store, 3)?;
    let d = IoBufMut::reserve(&mut store, 4)?;
    goes_around(&rt, &mut slots, a, b, c, d);
    only_blanks(&rt, &slots);
    Ok(())
}
