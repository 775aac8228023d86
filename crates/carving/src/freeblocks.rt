// The calls on freeblocks: of a page slice, and of a page by its number.
ghost use Rattle.carving.specs.Calls.{slice_asked, slice_filling, numbered_asked, numbered_filling};
ghost use Rattle.carving.specs.declared.inner.Carving.TheVariants.{Freeblocks};
ghost use Rattle.sheet.specs.Hits.{row_outcome, FillsRows};

use crate::inner::Carving;
use crate::single::{carve_numbered, carve_slice};
use sheet::filled::Filled;
use sheet::refusal::Refusal;

pub fn recover_slice_freeblocks(
    page: &[u8],
    head: usize,
    base: u64,
    hints: &[u8],
    rows: &mut [u64],
    cols: &mut [u64],
) -> Result<Filled, Refusal>
    ensures { FillsRows (slice_filling (slice_asked Freeblocks page.now head base hints.now rows.old cols.old))
        (row_outcome result rows.new cols.new) }
{
    carve_slice(Carving::Freeblocks, page, head, base, hints, rows, cols)
}

pub fn recover_page_freeblocks(
    db: &[u8],
    size: u64,
    page: u64,
    hints: &[u8],
    rows: &mut [u64],
    cols: &mut [u64],
) -> Result<Filled, Refusal>
    ensures { FillsRows (numbered_filling (numbered_asked Freeblocks db.now size page hints.now rows.old cols.old))
        (row_outcome result rows.new cols.new) }
{
    carve_numbered(Carving::Freeblocks, db, size, page, hints, rows, cols)
}
