// The archive for C: each call of phsarodil under its plain name, with the same clauses. A crate is a library or an archive, not both,
// so what is proved of the calls stands in phsarodil, and here is nothing but the names. include/phsarodil.h is its outside.
#![tactic(auto)]

pub mod block;
pub mod freeblocks;
pub mod gaps;
pub mod learned;
pub mod lists;
pub mod pages;
pub mod rows;
pub mod values;
pub mod version;
