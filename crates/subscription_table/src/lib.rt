// The table of the four subscription slots.
#![tactic(auto)]

pub mod table;
