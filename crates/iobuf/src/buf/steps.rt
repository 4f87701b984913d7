ghost use Rattle.std.specs.Prelude.{◌≡◌, ◌+◌, min, length, take, MatchResult};
ghost use Rattle.lists.specs.Parts.{laid};
ghost use Rattle.store.specs.Faults.{Short, no_store_room};
ghost use Rattle.iobuf.specs.Kinds.{span, fresh, behind, room, grown, sized};
ghost use Rattle.store.specs.Stretches.{start, free};

use super::{IoBuf, IoBufMut};
use store::fault::Fault;
use store::space::Store;

impl IoBufMut {
    // How many bytes can be written behind those that can be read.
    fn room(&self) -> usize
        ensures { result ≡ room (span self.now) }
    {
        self.capacity - self.readable.len
    }

    // A chunk of the next `c` bytes of the store, none of them readable yet.
    pub fn reserve(store: &mut Store, c: usize) -> Result<IoBufMut, Fault>
        ensures chunk { MatchResult result (λ x. span x ≡ fresh (start store.old.used) c) (Short c (free store.old.used) (no_store_room c (free store.old.used))) }
        ensures after { MatchResult result (λ _. (store.new.bytes ≡ store.old.bytes) × (store.new.used ≡ start store.old.used + c)) (λ _. store.new ≡ store.old) }
    {
        let place = store.reserve(c)?;
        Ok(IoBufMut {
            readable: IoBuf { place, len: 0 },
            capacity: c,
        })
    }

    // Pours the front of `s` into the writable bytes, as much as fits, and says how much.
    pub fn fill(&mut self, store: &mut Store, s: &[u8]) -> usize
        ensures count { result ≡ min (length s.now) (room (span self.old)) }
        ensures chunk { span self.new ≡ grown result (span self.old) }
        ensures bytes { store.new.bytes ≡ laid (behind (span self.old)) (take (room (span self.old)) s.now) store.old.bytes }
        ensures used { store.new.used ≡ store.old.used }
    {
        let behind = self.readable.place + self.readable.len;
        let count = store.write(behind, self.room(), s);
        self.readable.len += count;
        count
    }

    // Makes the next `n` writable bytes readable as they are, as many as there are, and says how many.
    pub fn lengthen(&mut self, n: usize) -> usize
        ensures count { result ≡ min n (room (span self.old)) }
        ensures chunk { span self.new ≡ grown result (span self.old) }
    {
        let count = n.min(self.room());
        self.readable.len += count;
        count
    }

    // Makes the first `n` bytes readable, as many as there are, and no others; says how many.
    pub fn set_len(&mut self, n: usize) -> usize
        ensures count { result ≡ min n (span self.old).capacity }
        ensures chunk { span self.new ≡ sized result (span self.old) }
    {
        self.readable.len = n.min(self.capacity);
        self.readable.len
    }
}
