// The engine as a host has it.
#![tactic(auto)]

pub mod engine;
