#![tactic(auto)]

// What calls on a list of chunks answer and leave, and the laws of that.
pub mod form;
