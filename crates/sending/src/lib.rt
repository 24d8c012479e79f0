// A message of a subscription.
#![tactic(auto)]

pub mod message;
