// The table of the engine's monitored items, the sampling pass of a tick, and the turn among reporting items.
#![tactic(auto)]

pub mod served;
pub mod table;
