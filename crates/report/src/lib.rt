#![tactic(auto)]

pub mod hex;
pub mod line;
pub mod outcome;
