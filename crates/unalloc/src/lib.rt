// Rows in unallocated space that look like those a table is known to have.
#![tactic(auto)]

pub mod unalloc;
