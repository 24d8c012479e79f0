// A script for the subscription engine: one call on a line.
#![tactic(auto)]

mod acknowledgements;
mod arguments;
pub mod command;
pub mod error;
pub mod expected;
pub mod parse;
mod plain;
mod value;
mod verb;
