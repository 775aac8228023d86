// Rows in the payload of one freed block: whole cells, and records whose header's length is lost.
#![tactic(auto)]

pub mod inner;
