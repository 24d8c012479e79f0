// The messages that are kept for retransmission, until they are acknowledged or newer ones take their place.
#![tactic(auto)]

pub mod kept;
