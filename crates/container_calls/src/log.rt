ghost use Rattle.std.specs.Prelude.{◌≤◌, length};

// Bytes that are written one after another to the front of a slice that a caller lends, since no library here uses the
// heap, as far as it reaches: so far there are `len`.
#[derive(Drop)]
pub(crate) struct Log<'a> {
    pub(crate) bytes: &'a mut [u8],
    pub(crate) len: usize,
    ghost within: { len ≤ length bytes.now },
}
