// For our own crates: what asks something of its caller.
pub mod keywords;
pub mod pieces;
