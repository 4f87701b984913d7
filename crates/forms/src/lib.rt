#![tactic(auto)]

// The forms of taking on lists of chunks, by example. A list is written r/c: readable bytes over capacity.

use iobuf::buf::IoBufMut;
use iobuf::chunk::Chunk;
use ring::Ring;
use store::fault::Fault;
use store::space::Store;

// Puts a chunk behind the others, if there is a slot for it.
fn add<K: Chunk>(ring: &mut Ring<'_, K>, chunk: K) {
    if ring.len() < ring.limit() {
        ring.push_back(chunk);
    }
}

// Puts a chunk of that capacity behind the others, filled with the bytes.
fn put(
    ring: &mut Ring<'_, IoBufMut>,
    store: &mut Store,
    bytes: &[u8],
    capacity: usize,
) -> Result<(), Fault> {
    let mut chunk = IoBufMut::reserve(store, capacity)?;
    let _ = chunk.fill(store, bytes);
    add(ring, chunk);
    Ok(())
}

// Readable bytes and capacity of the chunk `i`, if there is one.
fn chunk<K: Chunk>(ring: &Ring<'_, K>, i: usize) -> Option<(usize, usize)> {
    if i >= ring.len() {
        return None;
    }
    let c = ring.at(i);
    Some((c.remaining(), c.capacity()))
}

#[cfg(test)]
mod tests {
    use super::{add, chunk, put};
    use iobuf::buf::{IoBuf, IoBufMut};
    use iobuf::chunk::Chunk;
    use iobuf::run::Run;
    use ring::Ring;
    use std::test::Fail;
    use store::space::Store;
    use taking::advance::advance;
    use taking::copy::copy_to_bytes;
    use taking::totals::{capacity, remaining};

    // Form many: used-up chunks go with their tails, and the empty one between them only while bytes are to be taken.
    #[test]
    fn many_in_two_steps(rt: HostRuntime) -> Result<(), Fail> {
        let mut store = Store::new();
        let mut slots = [
            IoBufMut::blank(),
            IoBufMut::blank(),
            IoBufMut::blank(),
            IoBufMut::blank(),
        ];
        let mut ring = Ring::new(&mut slots);
        put(&mut ring, &mut store, b"ab", 2)?;
        put(&mut ring, &mut store, b"", 4)?;
        put(&mut ring, &mut store, b"c", 1)?;
        put(&mut ring, &mut store, b"d", 1)?;
        advance(&mut ring, 2)?;
        assert_eq!(rt; chunk(&ring, 0), Some((0, 4)));
        advance(&mut ring, 1)?;
        assert_eq!(rt; chunk(&ring, 0), Some((0, 4)));
        assert_eq!(rt; chunk(&ring, 1), Some((1, 1)));
        assert_eq!(rt; chunk(&ring, 2), None);
        Ok(())
    }

    #[test]
    fn many_at_once(rt: HostRuntime) -> Result<(), Fail> {
        let mut store = Store::new();
        let mut slots = [
            IoBufMut::blank(),
            IoBufMut::blank(),
            IoBufMut::blank(),
            IoBufMut::blank(),
        ];
        let mut ring = Ring::new(&mut slots);
        put(&mut ring, &mut store, b"ab", 2)?;
        put(&mut ring, &mut store, b"", 4)?;
        put(&mut ring, &mut store, b"c", 1)?;
        put(&mut ring, &mut store, b"d", 1)?;
        advance(&mut ring, 3)?;
        assert_eq!(rt; chunk(&ring, 0), Some((1, 1)));
        assert_eq!(rt; capacity(&ring), 1);
        assert_eq!(rt; chunk(&ring, 1), None);
        Ok(())
    }

    // Form one: advancing leaves the tail, copying the chunk's very bytes takes it along.
    #[test]
    fn one_chunk(rt: HostRuntime) -> Result<(), Fail> {
        let mut store = Store::new();
        let mut out = [0; 3];
        let mut slots = [IoBufMut::blank()];
        let mut ring = Ring::new(&mut slots);
        put(&mut ring, &mut store, b"abc", 5)?;
        advance(&mut ring, 3)?;
        assert_eq!(rt; chunk(&ring, 0), Some((0, 2)));
        let mut slots = [IoBufMut::blank()];
        let mut ring = Ring::new(&mut slots);
        put(&mut ring, &mut store, b"abc", 5)?;
        assert_eq!(rt; copy_to_bytes(&mut ring, &store, 3, &mut out)?, 3);
        assert_eq!(rt; out, *b"abc");
        assert_eq!(rt; chunk(&ring, 0), None);
        Ok(())
    }

    // Form small: the chunk at the front goes with its tail where the bytes are just its own, and stays with it where they are more.
    #[test]
    fn small(rt: HostRuntime) -> Result<(), Fail> {
        let mut store = Store::new();
        let mut out = [0; 3];
        let mut slots = [IoBufMut::blank(), IoBufMut::blank()];
        let mut ring = Ring::new(&mut slots);
        put(&mut ring, &mut store, b"ab", 4)?;
        put(&mut ring, &mut store, b"cd", 2)?;
        assert_eq!(rt; copy_to_bytes(&mut ring, &store, 3, &mut out)?, 3);
        assert_eq!(rt; chunk(&ring, 0), Some((0, 2)));
        assert_eq!(rt; chunk(&ring, 1), Some((1, 1)));
        let mut slots = [IoBufMut::blank(), IoBufMut::blank()];
        let mut ring = Ring::new(&mut slots);
        put(&mut ring, &mut store, b"ab", 4)?;
        put(&mut ring, &mut store, b"cd", 2)?;
        assert_eq!(rt; copy_to_bytes(&mut ring, &store, 2, &mut out)?, 2);
        assert_eq!(rt; chunk(&ring, 0), Some((2, 2)));
        assert_eq!(rt; chunk(&ring, 1), None);
        Ok(())
    }

    // The chunk at the front is meant, not the first with bytes.
    #[test]
    fn empty_front(rt: HostRuntime) -> Result<(), Fail> {
        let mut store = Store::new();
        let mut out = [0; 1];
        let mut slots = [IoBufMut::blank(), IoBufMut::blank()];
        let mut ring = Ring::new(&mut slots);
        put(&mut ring, &mut store, b"", 1)?;
        put(&mut ring, &mut store, b"a", 2)?;
        assert_eq!(rt; copy_to_bytes(&mut ring, &store, 1, &mut out)?, 1);
        assert_eq!(rt; chunk(&ring, 0), Some((0, 1)));
        assert_eq!(rt; chunk(&ring, 1), Some((0, 1)));
        Ok(())
    }

    // The same functions serve the kinds without tails; a refused call leaves all as it was.
    #[test]
    fn other_kinds(rt: HostRuntime) -> Result<(), Fail> {
        let mut store = Store::new();
        let mut out = [0; 4];
        let mut slots = [Run::blank(), Run::blank()];
        let mut ring = Ring::new(&mut slots);
        add(&mut ring, Run::new(7, 2)?);
        add(&mut ring, Run::new(8, 2)?);
        assert!(rt; advance(&mut ring, 5).is_err());
        assert_eq!(rt; remaining(&ring), 4);
        assert_eq!(rt; copy_to_bytes(&mut ring, &store, 3, &mut out)?, 3);
        assert_eq!(rt; out, [7, 7, 8, 0]);
        assert_eq!(rt; chunk(&ring, 0), Some((1, 1)));
        let mut slots = [IoBuf::blank()];
        let mut ring = Ring::new(&mut slots);
        let mut page = IoBufMut::reserve(&mut store, 4)?;
        let _ = page.fill(&mut store, b"ab");
        add(&mut ring, page.freeze());
        advance(&mut ring, 1)?;
        assert_eq!(rt; chunk(&ring, 0), Some((1, 1)));
        Ok(())
    }
}
