ghost use Rattle.std.specs.Prelude.{◌≤◌};
ghost use Rattle.store.specs.Sizes.{store_size};

pub mod calls;

// One byte value, as often as `count` says. It needs no bytes of a store.
#[derive(Clone, Copy)]
pub struct Run {
    byte: u8,
    count: usize,
    ghost short: { count ≤ store_size },
}
