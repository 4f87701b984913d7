#![tactic(auto)]

// The ring by example, at each kind of chunk.
#[cfg(test)]
mod tests;
