// Chunks as hexadecimal digits, with their borders.
ghost use Rattle.std.specs.Prelude.{◌≡◌, length, sum_by, Some};
ghost use Rattle.container_report.specs.Borders.{bytes_of, row_words};

use report::hex::Hex;
use std::fmt;

// The bytes of chunks of these sizes, one chunk behind the other, that are shown as `01 01 | 02`.
// Where bytes are wanting, the last chunks show fewer or none; what is left over is not shown. The sizes lie beside the
// bytes, and not in a list of vectors, so that a caller needs no heap. A loop shared with that of `Hex` would need a trait
// for the two kinds of items, and be no plainer.
#[derive(Clone, Copy)]
pub struct Bordered<'a> {
    pub bytes: &'a [u8],
    pub sizes: &'a [usize],
}

impl Bordered<'_> {
    // How many bytes are lent, those of no chunk with them.
    pub fn lent_count(&self) -> usize
        ensures { result ≡ length self.now.bytes.now }
    {
        self.bytes.len()
    }

    // How many bytes the chunks have, which are fewer than are lent where some are left over. A `u128`, so that the counts
    // of many rows can be added up.
    #[tactic(auto, using(crate::proofs::Counted::whole_counted))]
    pub fn byte_count(&self) -> u128
        ensures { result ≡ sum_by length (bytes_of self.now) }
    {
        let mut left_over = self.lent_count();
        for size in self.sizes {
            left_over = left_over.saturating_sub(*size);
        }
        (self.lent_count() - left_over) as u128
    }
}

impl fmt::Display for Bordered<'_> {
    ghost output = { λ b. Some (row_words b) };

    fn fmt<W: fmt::Write>(&self, f: &mut fmt::Formatter<W>) -> fmt::Result {
        let [first, others @ ..] = self.sizes else {
            return Ok(());
        };
        let (chunk, mut rest) = self.bytes.split_at(self.lent_count().min(*first));
        write!(f, "{}", Hex(chunk))?;
        for size in others {
            let (chunk, behind) = rest.split_at(rest.len().min(*size));
            write!(f, " | {}", Hex(chunk))?;
            rest = behind;
        }
        Ok(())
    }
}

#[cfg(test)]
mod tests {
    use super::Bordered;

    // Bytes that are left over, wanting, and just enough, and no chunks at all.
    #[test]
    fn counts_bytes(rt: HostRuntime) {
        let bytes = b"abcde".as_slice();
        let left_over = Bordered {
            bytes,
            sizes: [2, 0, 1].as_slice(),
        };
        assert_eq!(rt; left_over.byte_count(), 3);
        assert_eq!(rt; left_over.lent_count(), 5);
        let wanting = Bordered {
            bytes,
            sizes: [4, 4, 4].as_slice(),
        };
        assert_eq!(rt; wanting.byte_count(), 5);
        let enough = Bordered {
            bytes,
            sizes: [2, 3].as_slice(),
        };
        assert_eq!(rt; enough.byte_count(), 5);
        let none = Bordered {
            bytes,
            sizes: [].as_slice(),
        };
        assert_eq!(rt; none.byte_count(), 0);
    }
}
