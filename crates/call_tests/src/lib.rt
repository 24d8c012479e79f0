// Examples of the calls that a host makes, run as tests. What holds of every call is proved in the crates themselves.
#![tactic(auto)]

#[cfg(test)]
mod calls;
