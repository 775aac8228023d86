// The text of a list of rows, part by part, and the input that it is asked of.
#![tactic(auto)]

mod inner;
pub mod input;
pub mod part;
pub mod text;
