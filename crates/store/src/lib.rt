#![tactic(auto)]

pub mod ask;
pub mod fault;
pub mod sizes;
pub mod space;
