// The solver: the tables, the pick at their root, and the trace down to the list.
#![tactic(auto)]

pub mod solve;
pub mod split;
pub mod trace;
