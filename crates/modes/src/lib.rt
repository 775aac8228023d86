// Rows in freed space by three modes, from a table's count of columns alone.
#![tactic(auto)]

pub mod carver;
pub mod inner;
