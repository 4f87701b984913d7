ghost use Rattle.std.specs.Prelude.{◌≡◌, ◌≤◌, length};
ghost use Rattle.store.specs.Sizes.{store_size};

use crate::sizes::STORE_SIZE;

pub mod calls;

// The bytes that chunks lie in, of which the first `used` are given out. They are a fixed array, since no container uses
// the heap, and those that are not given out can be seen.
#[derive(Drop)]
pub struct Store {
    bytes: [u8; STORE_SIZE],
    used: usize,
    ghost within: { used ≤ store_size },
    // A proof that has only the struct does not know the array's length.
    ghost long: { length bytes ≡ store_size },
}

impl Store {
    // How many bytes are given out.
    pub fn used(&self) -> usize
        ensures { result ≡ self.now.used }
    {
        self.used
    }
}
