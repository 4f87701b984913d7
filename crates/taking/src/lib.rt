#![tactic(auto)]

pub mod advance;
pub mod copy;
mod laws;
pub mod totals;
