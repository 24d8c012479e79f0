// The replay of a list of calls on a new engine.
#![tactic(auto)]

pub mod replay;
pub mod scene;
