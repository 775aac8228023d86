// One page: as a slice, and by its number in a database.
ghost use Rattle.std.specs.Prelude.{Ok, length};
ghost use Rattle.carving.specs.Calls.{hits_by, slice_asked, slice_filling, numbered_asked, numbered_filling};
ghost use Rattle.carving.specs.Inner.{Filling};
ghost use Rattle.sheet.specs.Hits.{row_outcome, FillsRows};
ghost use Rattle.sheet.specs.Inner.{FilledIs};

use crate::inner::{Carving, carve_page};
use hit::inner::Spot;
use page::btree::{Page, get_page_data};
use sheet::columns::room;
use sheet::filled::Filled;
use sheet::hint::{hint_count_fits, hints_known};
use sheet::inner::Sheet;
use sheet::refusal::Refusal;
use sheet::slice::check_slice;

// Carves one page into lists that hold nothing yet.
fn fill(
    how: Carving,
    page: &[u8],
    head: usize,
    hints: &[u8],
    spot: Spot,
    rows: &mut [u64],
    cols: &mut [u64],
) -> Filled
    requires { Filling how (length page.now) (length hints.now) spot }
    ensures { FilledIs (hits_by how page.now head hints.now spot)
        (length hints.now) rows.old cols.old
        (row_outcome (Ok result) rows.new cols.new) }
{
    let width = hints.len();
    let room = room(rows.len(), cols.len(), width);
    // Made in place: of two slices that a call lends for one lifetime, a proof knows only the lengths afterwards.
    let mut sheet = Sheet {
        rows,
        cols,
        width,
        room,
        n: 0,
    };
    let added = carve_page(how, page, head, hints, spot, &mut sheet);
    sheet.filled(added)
}

// The page's type is not looked at, here and by number. Slices and lists stay apart, as the C interface lends them.
pub fn carve_slice(
    how: Carving,
    page: &[u8],
    head: usize,
    base: u64,
    hints: &[u8],
    rows: &mut [u64],
    cols: &mut [u64],
) -> Result<Filled, Refusal>
    ensures { FillsRows (slice_filling (slice_asked how page.now head base hints.now rows.old cols.old))
        (row_outcome result rows.new cols.new) }
{
    if how.refuses(hints.len()) {
        return Err(Refusal::ColumnCount);
    }
    check_slice(page.len(), hints, base)?;
    let spot = Spot {
        base,
        start: 0,
        table: 0,
    };
    Ok(fill(how, page, head, hints, spot, rows, cols))
}

pub fn carve_numbered(
    how: Carving,
    db: &[u8],
    size: u64,
    page: u64,
    hints: &[u8],
    rows: &mut [u64],
    cols: &mut [u64],
) -> Result<Filled, Refusal>
    ensures { FillsRows (numbered_filling (numbered_asked how db.now size page hints.now rows.old cols.old))
        (row_outcome result rows.new cols.new) }
{
    if how.refuses(hints.len()) || !hint_count_fits(hints.len()) {
        return Err(Refusal::ColumnCount);
    }
    if !hints_known(hints) {
        return Err(Refusal::Malformed);
    }
    let Page { start, len, head } = get_page_data(db, size, page)?;
    let spot = Spot {
        base: start as u64,
        start,
        table: 0,
    };
    Ok(fill(how, &db[start..start + len], head, hints, spot, rows, cols))
}
