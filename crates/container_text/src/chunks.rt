// Chunks as words.
ghost use Rattle.std.specs.Prelude.{◌≡◌, MatchResult};
ghost use Rattle.store.specs.Faults.{Short, run_too_long};
ghost use Rattle.store.specs.Sizes.{store_size};
ghost use Rattle.container_text.specs.Chunks.{chunk_of};

use iobuf::run::Run;
use store::fault::Fault;
use text::numbers::{decimal, hex_byte};

// A chunk as it is written, `BYTExCOUNT`: one byte, as often as `count` says.
#[derive(Clone, Copy, PartialEq, Eq, Debug)]
pub struct Spelled {
    pub byte: u8,
    pub count: usize,
}

// The run that is written so, or the refusal of one that is too long.
impl TryFrom<Spelled> for Run {
    type Error = Fault;

    ghost try_from_gives = { λ c r. MatchResult r (λ x. (x.byte ≡ c.byte) × (x.count ≡ c.count)) (Short c.count store_size (run_too_long c.count)) };

    fn try_from(chunk: Spelled) -> Result<Run, Fault> {
        Run::new(chunk.byte, chunk.count)
    }
}

// The chunk that a word writes: two hexadecimal digits and an `x`, and its count behind them.
pub fn chunk_word(word: &[u8]) -> Option<Spelled>
    ensures { result ≡ chunk_of word.now }
{
    let [high, low, b'x', count @ ..] = word else {
        return None;
    };
    let byte = hex_byte(&[*high, *low])?;
    let count = decimal(count)?;
    Some(Spelled { byte, count })
}

#[cfg(test)]
mod tests {
    use super::*;
    use iobuf::chunk::Chunk;

    #[test]
    fn becomes_a_run(rt: HostRuntime) {
        let page = Spelled {
            byte: 255,
            count: 12,
        };
        let size = Run::try_from(page).map(|run| run.remaining());
        assert_eq!(rt; size, Ok(12));
    }
}
