// One page, for our own crates.
mod block;
mod chain;

ghost use Rattle.std.specs.Prelude.{false, length};
ghost use Rattle.freeblock.specs.Freeblock.{page_hits};
ghost use Rattle.hit.specs.Inner.{Ready};
ghost use Rattle.sheet.specs.Inner.{told_by, Adds};

use crate::inner::block::carve_block;
use crate::inner::chain::chain_length;
use hit::inner::Spot;
use page::inner::{block_next, block_size, first_freeblock};
use sheet::inner::Sheet;

// Carves the blocks of a page whose b-tree header stands at `head`.
pub fn carve_page(
    page: &[u8],
    head: usize,
    hints: &[u8],
    spot: Spot,
    sheet: &mut Sheet<'_>,
) -> Option<()>
    requires { Ready (length page.now) (length hints.now) spot sheet.old }
    ensures { Adds (page_hits page.now head hints.now spot) false sheet.old
        (told_by result sheet.new) sheet.new }
{
    // A header past the page has no chain.
    if head > page.len() {
        return Some(());
    }
    let mut at = first_freeblock(page, head);
    for _ in 0..chain_length(page, head) {
        carve_block(page, at, block_size(page, at), hints, spot, sheet)?;
        at = block_next(page, at);
    }
    Some(())
}
