// Rows in the freeblocks of a page: their chain, one block, and the page.
#![tactic(auto)]

pub mod inner;
