// The numbers and Doubles that a word can be.
#![tactic(auto)]

pub mod double;
pub mod number;
