#![tactic(auto)]

use ring::Ring;

pub mod consuming;
pub mod putting;
pub mod totals;

// A container: chunks in a ring, over slots that the caller lends for its life.
#[derive(Drop)]
pub struct IoBufs<'a, K> {
    ring: Ring<'a, K>,
}
