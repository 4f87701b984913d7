#![tactic(auto)]

pub mod chunks;
pub mod lines;
