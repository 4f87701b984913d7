ghost use Rattle.std.specs.Prelude.{◌≡◌, ◌+◌, ◌-◌, min};
ghost use Rattle.iobuf.specs.Kinds.{buf_value};
ghost use Rattle.iobuf.specs.Values.{no_tail};
ghost use Rattle.std.proofs.Common.{refl, arith, rules};
ghost use Rattle.lists.proofs.Parts.{length_part};

use super::IoBuf;
use crate::chunk::{Chunk, SharedChunk};
use store::space::Store;
use store::space::calls::pour;

impl IoBuf {
    // What is left without the first `n` bytes.
    pub(super) fn rest(self, n: usize) -> IoBuf
        ensures place { result.place ≡ self.place + min n self.len }
        ensures len { result.len ≡ self.len - n }
    {
        let n = n.min(self.len);
        IoBuf {
            place: self.place + n,
            len: self.len - n,
        }
    }
}

impl Chunk for IoBuf {
    ghost value = { buf_value };

    ghost size = { λ x. x.len };

    ghost tail = { λ _. no_tail };

    ghost sized = { λ s x. length_part x.place x.len s.bytes (omega arith) };

    ghost tailed = { λ s x. refl };

    ghost bounded = { Prim.search rules };

    fn remaining(&self) -> usize {
        self.len
    }

    fn capacity(&self) -> usize {
        self.remaining()
    }

    fn pour_out(&self, store: &Store, out: &mut [u8]) {
        pour(out, store.view(self.place, self.len).unwrap());
    }

    #[tactic(auto, using(crate::proofs::Fronts::part_rest))]
    fn skip(&mut self, n: usize) {
        *self = self.rest(n);
    }

    fn blank() -> Self {
        IoBuf { place: 0, len: 0 }
    }
}

impl SharedChunk for IoBuf {
    ghost tailless = { λ x. refl };

    fn first(self, n: usize) -> IoBuf {
        IoBuf {
            place: self.place,
            len: n.min(self.len),
        }
    }
}
