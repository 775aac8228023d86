// What a piece of a CREATE TABLE statement says of a column.
#![tactic(auto)]

pub mod declared;
pub mod piece;
