// How many blocks the chain of a page has. It ends at a place that it has been to, and damaged pages have such chains.
ghost use Rattle.std.specs.Prelude.{◌≡◌, ◌≤◌, ◌<◌, length};
ghost use Rattle.freeblock.specs.Freeblock.{chain_ends, freeblocks};
ghost use Rattle.freeblock.specs.Inner.{CountedIs};
ghost use Rattle.sheet.specs.Limits.{largest_region};

use page::inner::{block_next, block_size, first_freeblock};

// Whether the chain ends at a place, wherever it has been.
#[tactic(auto, unfolding(crate::specs::Freeblock::chain_ends))]
fn chain_ends(page: &[u8], head: usize, at: usize) -> bool
    requires head_le_largest_region { head ≤ largest_region }
    requires at_bound { at < 65536 }
    ensures { result ≡ chain_ends page.now head at }
{
    // 0 is below the header's end, too.
    if at < head + 8 || at + 4 > page.len() {
        return true;
    }
    let size = block_size(page, at);
    size < 4 || at + size > page.len()
}

// A chain that comes to an end has not been anywhere twice, since from there it would go round. None of one that is as long as the page,
// so it may go round.
fn plain_length(page: &[u8], head: usize) -> Option<usize>
    requires { head ≤ largest_region }
    ensures { CountedIs page.now head result }
{
    let mut at = first_freeblock(page, head);
    for n in 0..page.len() {
        if chain_ends(page, head, at) {
            return Some(n);
        }
        at = block_next(page, at);
    }
    None
}

// Any chain, with a mark for each place that a block may have.
fn marked_length(page: &[u8], head: usize) -> usize
    requires { head ≤ largest_region }
    ensures { result ≡ length (freeblocks page.now head) }
{
    let mut marks = [0u8; 65536];
    let mut at = first_freeblock(page, head);
    for n in 0..page.len() {
        if chain_ends(page, head, at) || marks[at] != 0 {
            return n;
        }
        marks[at] = 1;
        at = block_next(page, at);
    }
    page.len()
}

// The marks cost more than most chains, so they are made only for those that do not end.
pub fn chain_length(page: &[u8], head: usize) -> usize
    requires { head ≤ largest_region }
    ensures { result ≡ length (freeblocks page.now head) }
{
    match plain_length(page, head) {
        Some(n) => n,
        None => marked_length(page, head),
    }
}
