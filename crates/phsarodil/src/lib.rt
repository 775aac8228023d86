// The C door: every public call under a plain name, over numbers and lent memory alone. A call returns the paper's
// refusal number, 0 for none, and writes the rest of its answer into `out` as words. include/phsarodil.h is its outside. Calls that differ
// only in what they ask stand each by itself: C calls them by their names.
#![tactic(auto)]

pub mod block;
pub mod freeblocks;
pub mod gaps;
pub mod learned;
pub mod lists;
pub mod pages;
pub mod rows;
pub mod values;
pub mod version;
