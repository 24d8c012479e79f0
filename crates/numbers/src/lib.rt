// Lists of handles, ids and sequence numbers.
#![tactic(auto)]

pub mod numbers;
