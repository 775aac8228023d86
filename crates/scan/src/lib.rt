// Rows carved out of a region of bytes by a table's hints.
#![tactic(auto)]

pub mod schema_sig;
