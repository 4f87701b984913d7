#![tactic(auto)]

pub mod putting;
pub mod splitting;
