// The gap of a page, scanned as a region.
ghost use Rattle.std.specs.Prelude.{◌≡◌, false, ◌+◌, ◌≤◌, length};
ghost use Rattle.gap.specs.Gap.{gap_from, gap_to, region_hits, gap_hits};
ghost use Rattle.hit.specs.Inner.{Ready};
ghost use Rattle.page.specs.Inner.{farthest};
ghost use Rattle.sheet.specs.Inner.{told_by, Adds};

use filter::inner::{High, last_of, next_row};
use hit::inner::{Spot, add_found, intra_page};
use page::inner::{cell_count, content_start};
use sheet::confidence::suited_share;
use sheet::inner::Sheet;

// What a content start of 0 stands for, since two bytes cannot say it.
const LARGEST_PAGE: usize = 65_536;

// Scans a region that begins at `from` in its page.
fn carve_region(
    bytes: &[u8],
    from: usize,
    hints: &[u8],
    spot: Spot,
    sheet: &mut Sheet<'_>,
) -> Option<()>
    requires { Ready (from + length bytes.now) (length hints.now) spot sheet.old }
    ensures { Adds (region_hits spot from bytes.now hints.now) false sheet.old
        (told_by result sheet.new) sheet.new }
{
    let last = last_of(bytes.len());
    let columns = hints.len();
    let mut o = 0;
    let mut met = High { from: 0, to: 0 };
    while let Some(next) = next_row(bytes, hints, o, last, met).row {
        let find = next.find;
        let confidence = suited_share(find.matched, columns as u16);
        let origin = intra_page(None, confidence);
        add_found(bytes, next.at, find, from, origin, columns, spot, sheet)?;
        o = next.at + find.consumed;
        met = next.run;
    }
    Some(())
}

// The gap begins where the cells' pointers end.
fn gap_from(page: &[u8], head: usize) -> usize
    requires { head + 8 ≤ farthest }
    ensures { result ≡ gap_from page.now head }
{
    head + 8 + 2 * cell_count(page, head)
}

// And ends where their content begins.
fn gap_to(page: &[u8], head: usize) -> usize
    requires { head + 8 ≤ farthest }
    ensures { result ≡ gap_to page.now head }
{
    let start = content_start(page, head);
    if start == 0 { LARGEST_PAGE } else { start }
}

// Carves the gap of a page that goes on behind its header.
pub fn carve_gap(
    page: &[u8],
    head: usize,
    hints: &[u8],
    spot: Spot,
    sheet: &mut Sheet<'_>,
) -> Option<()>
    requires head_in_bounds { head + 8 ≤ length page.now }
    requires ready { Ready (length page.now) (length hints.now) spot sheet.old }
    ensures { Adds (gap_hits page.now head hints.now spot) false sheet.old
        (told_by result sheet.new) sheet.new }
{
    let from = gap_from(page, head);
    let to = gap_to(page, head);
    if from >= to || to > page.len() {
        return Some(());
    }
    carve_region(&page[from..to], from, hints, spot, sheet)
}
