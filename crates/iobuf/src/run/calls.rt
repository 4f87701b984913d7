ghost use Rattle.std.specs.Prelude.{◌≡◌, MatchResult};
ghost use Rattle.store.specs.Faults.{Short, run_too_long};
ghost use Rattle.iobuf.specs.Kinds.{run_value};
ghost use Rattle.store.specs.Sizes.{store_size};
ghost use Rattle.iobuf.specs.Values.{no_tail};
ghost use Rattle.std.proofs.lemmas.List.{length-replicate};
ghost use Rattle.std.proofs.Common.{refl, rules};

use super::Run;
use crate::chunk::{Chunk, SharedChunk};
use store::ask;
use store::fault::Fault;
use store::space::Store;

impl Run {
    // A run of `count` bytes, each of them `byte`.
    pub fn new(byte: u8, count: usize) -> Result<Run, Fault>
        ensures { MatchResult result (λ x. (x.byte ≡ byte) × (x.count ≡ count)) (Short count store_size (run_too_long count)) }
    {
        ask::run_length(count)?;
        Ok(Run { byte, count })
    }
}

impl Chunk for Run {
    ghost value = { run_value };

    ghost size = { λ x. x.count };

    ghost tail = { λ _. no_tail };

    ghost sized = { λ s x. length-replicate x.count x.byte };

    ghost tailed = { λ s x. refl };

    ghost bounded = { Prim.search rules };

    fn remaining(&self) -> usize {
        self.count
    }

    fn capacity(&self) -> usize {
        self.remaining()
    }

    fn pour_out(&self, _store: &Store, out: &mut [u8]) {
        let n = self.count.min(out.len());
        out[0..n].fill(self.byte);
    }

    #[tactic(auto, using(crate::proofs::Fronts::run_rest))]
    fn skip(&mut self, n: usize) {
        *self = Run {
            byte: self.byte,
            count: self.count.saturating_sub(n),
        };
    }

    fn blank() -> Self {
        Run { byte: 0, count: 0 }
    }
}

impl SharedChunk for Run {
    ghost tailless = { λ x. refl };

    #[tactic(auto, using(crate::proofs::Fronts::run_first))]
    fn first(self, n: usize) -> Run {
        Run {
            byte: self.byte,
            count: n.min(self.count),
        }
    }
}
