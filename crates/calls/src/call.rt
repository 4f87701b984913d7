// One call on a chunk, with its numbers. It is a value, since a line of text says it.
#[derive(Clone, Copy, PartialEq, Eq, Debug)]
pub enum Call {
    // Makes the chunk a run of `count` bytes, all `byte`.
    Run { byte: u8, count: usize },
    // Hands out the first `n` bytes as a chunk, and keeps the rest.
    Cut { n: usize },
    // Drops the first `n` bytes.
    Advance { n: usize },
    // Copies the first `n` bytes to the output.
    WriteOut { n: usize },
}
