#![tactic(auto)]

pub mod border;
pub mod outcome;
pub mod state;
