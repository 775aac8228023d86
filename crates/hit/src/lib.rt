// A row that was found on a page, and its words in lent lists.
#![tactic(auto)]

pub mod inner;
