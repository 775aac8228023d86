// Statements read in either of two readings.
#![tactic(auto)]

pub mod statement;
