// The certificates that are to be renewed: lines of nodes and end days, the days left of each, and a verdict on each.
#![tactic(auto)]

pub mod entry;
pub mod line;
pub mod problem;
pub mod renewal;
pub mod report;
