// The monitored item: its settings and mode, its waiting samples, sampling, modification and modes.
#![tactic(auto)]

pub mod edges;
pub mod fault;
pub mod item;
pub mod row;
pub mod steps;
pub mod waiting;
