// Rows in the free space of a page.
#![tactic(auto)]

pub mod inner;
