// The calls that carve one page, said once for any way of carving it: of a page slice, and of a page by its number.
#![tactic(auto)]

pub mod freeblocks;
pub mod gaps;
pub mod inner;
mod single;
