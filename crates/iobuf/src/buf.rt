ghost use Rattle.std.specs.Prelude.{◌≡◌, ◌+◌, ◌≤◌};
ghost use Rattle.store.specs.Sizes.{store_size};

pub mod shared;
pub mod steps;
pub mod writable;

// The `len` bytes of a store from `place` on. It is a place and not a slice, so that the store can be written meanwhile.
#[derive(Clone, Copy)]
pub struct IoBuf {
    place: usize,
    len: usize,
    ghost within: { place + len ≤ store_size },
}

// `capacity` bytes of a store: the first of them can be read, and those behind them written. They are no slice either, for
// the same reason.
#[derive(Drop)]
pub struct IoBufMut {
    readable: IoBuf,
    capacity: usize,
    ghost within: { readable.place + capacity ≤ store_size },
    ghost filled: { readable.len ≤ capacity },
}

impl IoBufMut {
    // Gives up the writable bytes: what can be read is an IoBuf from now on.
    pub fn freeze(self) -> IoBuf
        ensures { result ≡ self.readable }
    {
        self.readable
    }
}
