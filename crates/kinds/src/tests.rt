use crate::laws::perform_rising;
use crate::rising::Rising;
use bufs::IoBufs;
use container_calls::call::Call;
use container_calls::perform::perform;
use container_calls::series::perform_all;
use iobuf::chunk::{Chunk, SharedChunk};
use std::process::Abort;
use std::test::Fail;
use store::fault::{Fault, Layer, Refusal};
use store::sizes::STORE_SIZE;
use store::space::Store;

// The four numbers of a refusal, by which the rules give it.
fn told(fault: Fault) -> [usize; 4] {
    [
        fault.number() as usize,
        fault.level() as usize,
        fault.asked,
        fault.available,
    ]
}

// The chunk `i` has just these bytes.
fn holds(
    rt: &impl Abort,
    bufs: &IoBufs<'_, Rising>,
    store: &Store,
    i: usize,
    bytes: &[u8],
) -> Result<(), Fail> {
    let chunk = bufs.nth(i).ok_or("no such chunk")?;
    let n = chunk.remaining();
    let mut out = [0; 8];
    chunk.write_out(store, n, &mut out)?;
    assert_eq!(rt; &out[0..n], bytes);
    Ok(())
}

#[test]
fn of_a_chunk(rt: HostRuntime) -> Result<(), Fail> {
    let store = Store::new();
    let mut out = [9; 4];
    let mut chunk = Rising::new(254, 4)?;
    let front = chunk.cut(1)?;
    front.write_out(&store, 1, &mut out)?;
    assert_eq!(rt; out, [254, 9, 9, 9]);
    chunk.write_out(&store, 3, &mut out)?;
    assert_eq!(rt; out, [255, 0, 1, 9]);
    let Err(fault) = Rising::new(0, STORE_SIZE + 1) else {
        return Err(Fail::new("too long"));
    };
    assert_eq!(rt; told(fault), [9, 2, 16385, 16384]);
    Ok(())
}

// A container of three slots, filled and put to until none is left; then a call is refused.
#[test]
fn puts_chunks_in(rt: HostRuntime) -> Result<(), Fail> {
    let store = Store::new();
    let mut slots = [Rising::blank(); 3];
    let mut bufs = IoBufs::new(&mut slots);
    let mut target = IoBufs::new(&mut []);
    bufs.from_chunks(&[Rising::new(7, 0)?, Rising::new(254, 4)?])?;
    let back = Call::Append(Rising::new(10, 2)?);
    let done = perform(back, &mut bufs, &store, &mut target, &mut []);
    assert_eq!(rt; done, Ok(None));
    let front = Call::Prepend(Rising::new(5, 1)?);
    let done = perform(front, &mut bufs, &store, &mut target, &mut []);
    assert_eq!(rt; done, Ok(None));
    let Err(fault) = perform(back, &mut bufs, &store, &mut target, &mut []) else {
        return Err(Fail::new("a slot too many"));
    };
    assert_eq!(rt; told(fault), [4, 3, 4, 3]);
    assert_eq!(rt; [bufs.chunk_count(), bufs.limit()], [3, 3]);
    assert_eq!(rt;
        [bufs.len(), bufs.capacity(), bufs.remaining_mut()],
        [7, 7, 0]
    );
    holds(&rt, &bufs, &store, 0, &[5])?;
    holds(&rt, &bufs, &store, 1, &[254, 255, 0, 1])?;
    holds(&rt, &bufs, &store, 2, &[10, 11])
}

// Bytes are taken in each of the three ways: a chunk is cut in two, one is advanced, and one is copied out in part.
#[test]
fn takes_bytes_out(rt: HostRuntime) -> Result<(), Fail> {
    let store = Store::new();
    let mut out = [9; 3];
    let mut slots = [Rising::blank(); 2];
    let mut bufs = IoBufs::new(&mut slots);
    let mut lent = [Rising::blank(); 2];
    let mut target = IoBufs::new(&mut lent);
    bufs.from_chunks(&[Rising::new(254, 4)?, Rising::new(10, 3)?])?;
    let done = perform_rising(Call::SplitTo(2), &mut bufs, &store, &mut target, &mut out);
    assert_eq!(rt; done, Ok(None));
    holds(&rt, &target, &store, 0, &[254, 255])?;
    holds(&rt, &bufs, &store, 0, &[0, 1])?;
    let done = perform_rising(Call::Advance(1), &mut bufs, &store, &mut target, &mut out);
    assert_eq!(rt; done, Ok(None));
    holds(&rt, &bufs, &store, 0, &[1])?;
    let done = perform_rising(
        Call::CopyToBytes(2),
        &mut bufs,
        &store,
        &mut target,
        &mut out,
    );
    assert_eq!(rt; done, Ok(Some(2)));
    assert_eq!(rt; out, [1, 10, 9]);
    holds(&rt, &bufs, &store, 0, &[11, 12])?;
    assert_eq!(rt; [target.chunk_count(), bufs.chunk_count()], [1, 1]);
    Ok(())
}

// A list of calls: what the share and the copy handed out stands in the log.
#[test]
fn performs_a_list(rt: HostRuntime) -> Result<(), Fail> {
    let store = Store::new();
    let mut slots = [Rising::blank(); 2];
    let mut bufs = IoBufs::new(&mut slots);
    let calls = [
        Call::Append(Rising::new(255, 3)?),
        Call::Prepend(Rising::new(20, 2)?),
        Call::SplitTo(3),
        Call::Advance(3),
        Call::CopyToBytes(1),
    ];
    let mut lent = [Rising::blank(); 2];
    let mut out = [0; 4];
    let mut answers = [Ok(None); 5];
    let mut log = [9; 6];
    perform_all(
        &calls,
        &mut bufs,
        &store,
        &mut lent,
        &mut out,
        &mut answers,
        &mut log,
    )?;
    let refused = Err(Fault {
        refusal: Refusal::NotEnoughBytes,
        layer: Layer::Container,
        asked: 3,
        available: 2,
    });
    assert_eq!(rt; answers[2], Ok(None));
    assert_eq!(rt; answers[3], refused);
    assert_eq!(rt; answers[4], Ok(Some(1)));
    assert_eq!(rt; log, [20, 21, 255, 0, 9, 9]);
    holds(&rt, &bufs, &store, 0, &[1])
}
