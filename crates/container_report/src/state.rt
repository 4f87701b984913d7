// What a container holds, in words.
ghost use Rattle.std.specs.Prelude.{Some};
ghost use Rattle.container_report.specs.States.{contents_words, totals_words};

use crate::border::Bordered;
use std::fmt;

// The chunks of a container: how many, how many bytes, and the bytes. The counts are what the container itself answers.
#[derive(Clone, Copy)]
pub struct Contents<'a> {
    pub count: usize,
    pub remaining: usize,
    pub chunks: Bordered<'a>,
}

impl fmt::Display for Contents<'_> {
    ghost output = { λ c. Some (contents_words c) };

    fn fmt<W: fmt::Write>(&self, f: &mut fmt::Formatter<W>) -> fmt::Result {
        write!(
            f,
            "chunks {}, remaining {} [{}]",
            self.count, self.remaining, self.chunks
        )
    }
}

// How many bytes its chunks could hold, how many of those can be written, and how many slots are free.
#[derive(Clone, Copy)]
pub struct Totals {
    pub capacity: usize,
    pub writable: usize,
    pub free: usize,
}

impl fmt::Display for Totals {
    ghost output = { λ t. Some (totals_words t) };

    fn fmt<W: fmt::Write>(&self, f: &mut fmt::Formatter<W>) -> fmt::Result {
        write!(
            f,
            "capacity {}, writable {}, slots free {}",
            self.capacity, self.writable, self.free
        )
    }
}
