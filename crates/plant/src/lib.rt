// The subject: stations, lines, the tree that draws the plant, selections of stations, and refusals.
#![tactic(auto)]

pub mod limits;
pub mod records;
pub mod refusal;
pub mod selection;
pub mod site;
pub mod stack;
pub mod table;
pub mod tree;
