// The calls on monitored items.
#![tactic(auto)]

pub mod create_item;
pub mod delete_item;
pub mod modify_item;
pub mod set_monitoring_mode;
mod settings;
pub mod waiting_samples;
