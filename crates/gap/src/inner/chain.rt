// The freed blocks of a page, by the chain rule of the gap scan: a block of a bad size is left out, and the chain goes on.
ghost use Rattle.std.specs.Prelude.{◌≡◌, false, [], ◌+◌, ◌≤◌, ◌<◌, length};
ghost use Rattle.gap.specs.Gap.{block_then, blocks_hits, chain, chain_ends};
ghost use Rattle.gap.specs.Inner.{larger};
ghost use Rattle.hit.specs.Inner.{Ready};
ghost use Rattle.page.specs.Page.{block_next};
ghost use Rattle.rebuild.specs.Header.{most_by};
ghost use Rattle.sheet.specs.Inner.{told_by, Adds};

use cells::inner::carve_payload;
use hit::inner::Spot;
use page::inner::{block_next, block_size, first_freeblock};
use rebuild::rebuilding::Rebuilding;
use sheet::inner::Sheet;

// No more places than this are gone to.
const MOST_STEPS: usize = 1_024;

// No block is at 0, and none whose four bytes pass the page.
#[tactic(auto, unfolding(crate::specs::Gap::chain_ends))]
fn chain_ends(page: &[u8], at: usize) -> bool
    requires { at < 65536 }
    ensures { result ≡ chain_ends page.now at }
{
    at == 0 || at + 4 > page.len()
}

// Where the chain goes on; 0, which ends it, where the next place is not larger.
fn next_place(page: &[u8], at: usize) -> usize
    requires { at + 4 ≤ length page.now }
    ensures value { result ≡ larger at (block_next page.now at) }
    ensures small { result < 65536 }
{
    let next = block_next(page, at);
    if next <= at { 0 } else { next }
}

// Carves the block at a place of a page, unless its size is bad.
fn carve_block(
    how: Rebuilding,
    page: &[u8],
    at: usize,
    hints: &[u8],
    spot: Spot,
    sheet: &mut Sheet<'_>,
) -> Option<()>
    requires at_in_bounds { at + 4 ≤ length page.now }
    requires hints_len_bound { length hints.now ≤ most_by how }
    requires ready { Ready (length page.now) (length hints.now) spot sheet.old }
    ensures { Adds (blocks_hits how page.now hints.now spot (block_then page.now at [])) false sheet.old
        (told_by result sheet.new) sheet.new }
{
    let size = block_size(page, at);
    let from = at + 4;
    let end = at + size;
    if size < 4 || end > page.len() {
        return Some(());
    }
    carve_payload(how, &page[from..end], hints, spot, from, sheet)
}

// Carves the blocks of a page whose b-tree header stands at `head`.
pub fn carve_blocks(
    how: Rebuilding,
    page: &[u8],
    head: usize,
    hints: &[u8],
    spot: Spot,
    sheet: &mut Sheet<'_>,
) -> Option<()>
    requires head_in_bounds { head + 8 ≤ length page.now }
    requires hints_len_bound { length hints.now ≤ most_by how }
    requires ready { Ready (length page.now) (length hints.now) spot sheet.old }
    ensures { Adds (blocks_hits how page.now hints.now spot (chain page.now head)) false sheet.old
        (told_by result sheet.new) sheet.new }
{
    let mut at = first_freeblock(page, head);
    for _ in 0..MOST_STEPS {
        if chain_ends(page, at) {
            break;
        }
        carve_block(how, page, at, hints, spot, sheet)?;
        at = next_place(page, at);
    }
    Some(())
}
