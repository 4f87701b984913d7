ghost use Rattle.std.specs.Prelude.{◌≤◌};
ghost use Rattle.store.specs.Sizes.{store_size};

pub mod calls;

// Bytes that count up by one from `start`, and after 255 go on with 0. It needs no bytes of a store.
#[derive(Clone, Copy)]
pub struct Rising {
    start: u8,
    count: usize,
    ghost short: { count ≤ store_size },
}
