// A page of a database: where it lies, and the numbers that stand on it.
#![tactic(auto)]

pub mod btree;
pub mod inner;
