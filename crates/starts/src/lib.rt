// Starts of headers that are rebuilt, and those that are passed over.
#![tactic(auto)]

pub mod inner;
