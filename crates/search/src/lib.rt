#![tactic(auto)]

pub mod search;
