// Records of the SQLite file format: varints, serial types, values, and the column entries that name them.
#![tactic(auto)]

pub mod entry;
pub mod inner;
pub mod record;
pub mod varint;
