// The rows of the stations' and of the lines' table.
#![tactic(auto)]

pub mod fields;
pub mod kind;
pub mod laws;
pub mod lines;
pub mod read;
pub mod stations;
pub mod text;
