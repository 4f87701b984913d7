ghost use Rattle.iobuf.specs.Kinds.{span, span_tail, span_value};
ghost use Rattle.std.proofs.Common.{refl, arith, rules};
ghost use Rattle.lists.proofs.Parts.{length_part};

use super::{IoBuf, IoBufMut};
use crate::chunk::Chunk;
use store::space::Store;

impl Chunk for IoBufMut {
    ghost value = { λ s x. span_value s (span x) };

    ghost size = { λ x. x.readable.len };

    ghost tail = { λ x. span_tail (span x) };

    ghost sized = { λ s x. length_part x.readable.place x.readable.len s.bytes (omega arith) };

    ghost tailed = { λ s x. refl };

    ghost bounded = { Prim.search rules };

    fn remaining(&self) -> usize {
        self.readable.remaining()
    }

    fn capacity(&self) -> usize {
        self.capacity
    }

    fn pour_out(&self, store: &Store, out: &mut [u8]) {
        self.readable.pour_out(store, out);
    }

    // The writable bytes stay where they are.
    #[tactic(auto, using(crate::proofs::Fronts::part_rest))]
    fn skip(&mut self, n: usize) {
        let n = n.min(self.readable.len);
        *self = IoBufMut {
            readable: self.readable.rest(n),
            capacity: self.capacity - n,
        };
    }

    fn blank() -> Self {
        IoBufMut {
            readable: IoBuf { place: 0, len: 0 },
            capacity: 0,
        }
    }
}
