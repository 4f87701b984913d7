#![tactic(auto)]

pub mod arguments;
pub mod lines;
pub mod numbers;
pub mod unreadable;
pub mod words;
