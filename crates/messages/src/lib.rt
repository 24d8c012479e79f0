// Messages, and the responses that carry them.
#![tactic(auto)]

pub mod message;
pub mod notifications;
mod padded;
pub mod response;
