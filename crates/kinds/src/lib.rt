#![tactic(auto)]

// A kind of chunk that the other crates do not know. It meets the interface, and everything above that serves it as it is.
pub mod laws;
pub mod rising;
#[cfg(test)]
mod tests;
