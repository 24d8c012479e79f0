// The engine's state, its view as lists, and the steps of its calls as definitions.
#![tactic(auto)]

pub mod live;
pub mod parameters;
pub mod revised;
pub mod state;
