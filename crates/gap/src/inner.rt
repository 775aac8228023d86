// One page, for our own crates.
mod chain;
mod region;

ghost use Rattle.std.specs.Prelude.{false, ◌≤◌, length};
ghost use Rattle.gap.specs.Gap.{page_hits};
ghost use Rattle.hit.specs.Inner.{Ready};
ghost use Rattle.rebuild.specs.Header.{most_by};
ghost use Rattle.sheet.specs.Inner.{told_by, Adds};

use crate::inner::chain::carve_blocks;
use crate::inner::region::carve_gap;
use hit::inner::Spot;
use rebuild::rebuilding::Rebuilding;
use sheet::inner::Sheet;

// Carves the gap and then the blocks of a page whose b-tree header stands at `head`.
pub fn carve_page(
    how: Rebuilding,
    page: &[u8],
    head: usize,
    hints: &[u8],
    spot: Spot,
    sheet: &mut Sheet<'_>,
) -> Option<()>
    requires hints_len_bound { length hints.now ≤ most_by how }
    requires ready { Ready (length page.now) (length hints.now) spot sheet.old }
    ensures { Adds (page_hits how page.now head hints.now spot) false sheet.old
        (told_by result sheet.new) sheet.new }
{
    // The header's place may be any number, so nothing is added to it here.
    if head > page.len() || page.len() - head < 8 {
        return Some(());
    }
    carve_gap(page, head, hints, spot, sheet)?;
    carve_blocks(how, page, head, hints, spot, sheet)
}
