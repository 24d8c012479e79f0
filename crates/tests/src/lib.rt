// Examples of what the layers do, run as tests. What holds in every case is proved in the crates themselves.
#![tactic(auto)]

#[cfg(test)]
mod changes;
#[cfg(test)]
mod common;
#[cfg(test)]
mod monitoring;
#[cfg(test)]
mod plants;
#[cfg(test)]
mod queues;
