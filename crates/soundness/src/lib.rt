// Every step keeps what holds of the engine's state.
#![tactic(auto)]
