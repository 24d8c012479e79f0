// What a call answers where it is refused, and what an acknowledgement comes to.
#![tactic(auto)]

pub mod acknowledgement;
pub mod fault;
