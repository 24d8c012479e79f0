// The publishing cycles of a tick.
#![tactic(auto)]

mod cycle;
mod responses;
pub mod tick;
