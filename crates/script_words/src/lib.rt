// The words of a line, and the texts that a word can be.
#![tactic(auto)]

pub mod text;
pub mod words;
