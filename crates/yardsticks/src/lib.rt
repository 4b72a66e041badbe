// How a selection is measured: the yardstick, and the two that come with the planner.
#![tactic(auto)]

pub mod figures;
pub mod measure;
pub mod money;
pub mod urgent;
pub mod yardstick;
