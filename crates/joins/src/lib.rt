// Cells, where they lie, and the join of two rows of them.
#![tactic(auto)]

pub mod cell;
pub mod joins;
pub mod share;
