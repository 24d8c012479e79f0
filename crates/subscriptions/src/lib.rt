// A subscription's record and its publishing cycle.
#![tactic(auto)]

pub mod changes;
pub mod cycle;
pub mod edges;
pub mod figures;
pub mod parameters;
pub mod revision;
pub mod row;
pub mod subscription;
