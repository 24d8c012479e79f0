// The calls on kept messages: acknowledgements, Republish and the kept numbers.
#![tactic(auto)]

pub mod acknowledge;
pub mod kept_numbers;
pub mod republish;
