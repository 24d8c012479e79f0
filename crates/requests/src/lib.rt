// Publish: acknowledgements, then the request.
#![tactic(auto)]

pub mod publish;
mod request;
