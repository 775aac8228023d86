// Whether a row starts at an offset of a region, by a table's hints.
#![tactic(auto)]

pub mod inner;
pub mod schema_sig;
