// What a call did, in words.
ghost use Rattle.std.specs.Prelude.{Some};
ghost use Rattle.report.specs.Outcomes.{accepted_words, holds_words};

use crate::hex::Hex;
use std::fmt;

// An accepted call, by the bytes that it handed out.
#[derive(Clone, Copy)]
pub struct Accepted<'a>(pub &'a [u8]);

impl fmt::Display for Accepted<'_> {
    ghost output = { λ a. Some (accepted_words a.0.now) };

    fn fmt<W: fmt::Write>(&self, f: &mut fmt::Formatter<W>) -> fmt::Result {
        write!(f, "accepted, handed out {} [{}]", self.0.len(), Hex(self.0))
    }
}

// What a chunk holds: its bytes, and how many it could hold.
#[derive(Clone, Copy)]
pub struct Holds<'a> {
    pub bytes: &'a [u8],
    pub capacity: usize,
}

impl fmt::Display for Holds<'_> {
    ghost output = { λ h. Some (holds_words h.bytes.now h.capacity) };

    fn fmt<W: fmt::Write>(&self, f: &mut fmt::Formatter<W>) -> fmt::Result {
        write!(
            f,
            "remaining {}, capacity {} [{}]",
            self.bytes.len(),
            self.capacity,
            Hex(self.bytes)
        )
    }
}
