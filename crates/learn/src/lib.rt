#![tactic(auto)]

pub mod learn;
