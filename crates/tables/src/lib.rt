// The calls that carve the leaves of tables, said once for any way of carving a page.
#![tactic(auto)]

pub mod freeblocks;
pub mod gaps;
mod tables;
