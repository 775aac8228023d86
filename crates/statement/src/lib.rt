// Statements read as the Rust reads them.
#![tactic(auto)]

pub mod statement;
