#![tactic(auto)]

pub mod answer;
pub mod call;
mod log;
pub mod perform;
pub mod series;
mod steps;
