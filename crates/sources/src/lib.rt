// Sample sources: the process image, the certificates, and two sources joined into one.
#![tactic(auto)]

pub mod certificates;
pub mod fault;
pub mod image;
pub mod joined;
pub mod rows;
pub mod source;
mod table;
