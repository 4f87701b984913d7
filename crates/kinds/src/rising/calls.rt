ghost use Rattle.std.specs.Prelude.{◌≡◌, ◌+◌, ◌%◌, MatchResult};
ghost use Rattle.store.specs.Faults.{Short, run_too_long};
ghost use Rattle.store.specs.Sizes.{store_size};
ghost use Rattle.iobuf.specs.Values.{no_tail};
ghost use Rattle.kinds.specs.Worth.{rising_value};
ghost use Rattle.kinds.specs.Patterns.{length_rising};
ghost use Rattle.std.proofs.Common.{refl, rules};

use super::Rising;
use iobuf::chunk::{Chunk, SharedChunk};
use store::ask;
use store::fault::Fault;
use store::space::Store;

impl Rising {
    // The `count` bytes that count up from `start`.
    pub fn new(start: u8, count: usize) -> Result<Rising, Fault>
        ensures { MatchResult result (λ x. (x.start ≡ start) × (x.count ≡ count)) (Short count store_size (run_too_long count)) }
    {
        ask::run_length(count)?;
        Ok(Rising { start, count })
    }

    // The byte `i`, or the one that would stand there.
    fn byte_at(self, i: usize) -> u8
        ensures { result ≡ (self.start + i) % 256 }
    {
        self.start.wrapping_add((i % 256) as u8)
    }
}

impl Chunk for Rising {
    ghost value = { rising_value };

    ghost size = { λ x. x.count };

    ghost tail = { λ _. no_tail };

    ghost sized = { λ s x. length_rising x.start x.count };

    ghost tailed = { λ s x. refl };

    ghost bounded = { Prim.search rules };

    fn remaining(&self) -> usize {
        self.count
    }

    fn capacity(&self) -> usize {
        self.remaining()
    }

    #[tactic(auto, using(crate::specs::Patterns::written_next, crate::specs::Patterns::all_written))]
    fn pour_out(&self, _store: &Store, out: &mut [u8]) {
        let n = self.count.min(out.len());
        let front = &mut out[0..n];
        for (i, place) in front.iter_mut().enumerate() {
            *place = self.byte_at(i);
        }
    }

    #[tactic(auto, using(crate::specs::Patterns::drop_rising))]
    fn skip(&mut self, n: usize) {
        *self = Rising {
            start: self.byte_at(n),
            count: self.count.saturating_sub(n),
        };
    }

    fn blank() -> Self {
        Rising { start: 0, count: 0 }
    }
}

impl SharedChunk for Rising {
    ghost tailless = { λ x. refl };

    #[tactic(auto, using(crate::specs::Patterns::take_rising))]
    fn first(self, n: usize) -> Rising {
        Rising {
            start: self.start,
            count: n.min(self.count),
        }
    }
}
