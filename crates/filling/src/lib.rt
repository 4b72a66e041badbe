// The tables of a plant, filled node by node.
#![tactic(auto)]

pub mod fill;
pub mod joint;
pub mod tables;
