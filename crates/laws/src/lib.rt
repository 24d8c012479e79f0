// Runs of calls, and the laws that every run obeys.
#![tactic(auto)]

pub mod laws;
