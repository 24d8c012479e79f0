// The calls on subscriptions.
#![tactic(auto)]

pub mod create_subscription;
pub mod delete_subscription;
pub mod modify_subscription;
pub mod set_publishing_mode;
