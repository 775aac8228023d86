// The walk over the pages of a table's tree, down to its leaves.
#![tactic(auto)]

pub mod inner;
pub mod walk;
