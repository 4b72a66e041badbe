// The pick at the root.
#![tactic(auto)]

pub mod offer;
pub mod root;
