// Three texts become the records and the nodes of a plant, or earn one refusal.
#![tactic(auto)]

pub mod laws;
pub mod read;
