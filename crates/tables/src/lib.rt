// Tables of comma-separated values: their records and the numbers in their fields, read in place and written.
#![tactic(auto)]

pub mod grammar;
pub mod numbers;
pub mod write;
