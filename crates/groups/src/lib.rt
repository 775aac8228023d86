// Rows that are lent as groups of column entries, over one slice.
#![tactic(auto)]

pub mod inner;
