#![tactic(auto)]

pub mod buf;
pub mod chunk;
pub mod run;
