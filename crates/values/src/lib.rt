// Values, samples, filters, and what is a change between two samples.
#![tactic(auto)]

pub mod change;
pub mod check;
pub mod checked;
pub mod code;
pub mod fault;
pub mod filter;
pub mod laws;
pub mod notification;
pub mod number;
pub mod ticks;
pub mod value;
