// A value as the words that C programs have of it.
#![tactic(auto)]

pub mod inner;
