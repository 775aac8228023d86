// Digits and bytes into a lent list. Nothing of the system is needed for it.
#![tactic(auto)]

pub mod inner;
