// What an accepted call handed out, in words.
ghost use Rattle.std.specs.Prelude.{Some};
ghost use Rattle.container_report.specs.Outcomes.{handed_words, copied_words};

use crate::border::Bordered;
use report::hex::Hex;
use std::fmt;

// The chunks that a call handed out. One type for bytes and chunks would have to be told the count, and could be told a
// wrong one.
#[derive(Clone, Copy)]
pub struct HandedOut<'a>(pub Bordered<'a>);

impl fmt::Display for HandedOut<'_> {
    ghost output = { λ h. Some (handed_words h.0) };

    fn fmt<W: fmt::Write>(&self, f: &mut fmt::Formatter<W>) -> fmt::Result {
        write!(
            f,
            "accepted, handed out {} [{}]",
            self.0.lent_count(),
            self.0
        )
    }
}

// The bytes that a call copied out. What `report` shows of an accepted call differs in one word; a type for both would be
// told the word, and be no plainer than two of one `write!` each.
#[derive(Clone, Copy)]
pub struct Copied<'a>(pub &'a [u8]);

impl fmt::Display for Copied<'_> {
    ghost output = { λ c. Some (copied_words c.0.now) };

    fn fmt<W: fmt::Write>(&self, f: &mut fmt::Formatter<W>) -> fmt::Result {
        write!(f, "accepted, copied {} [{}]", self.0.len(), Hex(self.0))
    }
}
