// The calls on gaps and the blocks behind them: of a page slice, of a page by its number, and of one block's payload. Slices and
// lists stay apart, as the C interface lends them.
ghost use Rattle.carving.specs.Calls.{slice_asked, slice_filling, numbered_asked, numbered_filling};
ghost use Rattle.carving.specs.declared.inner.Carving.TheVariants.{Gaps, Payload};
ghost use Rattle.sheet.specs.Hits.{row_outcome, FillsRows};

use crate::inner::Carving;
use crate::single::{carve_numbered, carve_slice};
use rebuild::rebuilding::Rebuilding;
use sheet::filled::Filled;
use sheet::refusal::Refusal;

pub fn scan_single_page_gap(
    rebuilding: Rebuilding,
    page: &[u8],
    head: usize,
    base: u64,
    hints: &[u8],
    rows: &mut [u64],
    cols: &mut [u64],
) -> Result<Filled, Refusal>
    ensures { FillsRows (slice_filling (slice_asked (Gaps rebuilding) page.now head base hints.now rows.old cols.old))
        (row_outcome result rows.new cols.new) }
{
    carve_slice(
        Carving::Gaps(rebuilding),
        page,
        head,
        base,
        hints,
        rows,
        cols,
    )
}

pub fn scan_page_gap(
    rebuilding: Rebuilding,
    db: &[u8],
    size: u64,
    page: u64,
    hints: &[u8],
    rows: &mut [u64],
    cols: &mut [u64],
) -> Result<Filled, Refusal>
    ensures { FillsRows (numbered_filling (numbered_asked (Gaps rebuilding) db.now size page hints.now rows.old cols.old))
        (row_outcome result rows.new cols.new) }
{
    carve_numbered(Carving::Gaps(rebuilding), db, size, page, hints, rows, cols)
}

pub fn parse_cells_from_freeblock(
    rebuilding: Rebuilding,
    payload: &[u8],
    base: u64,
    hints: &[u8],
    rows: &mut [u64],
    cols: &mut [u64],
) -> Result<Filled, Refusal>
    ensures { FillsRows (slice_filling (slice_asked (Payload rebuilding) payload.now 0 base hints.now rows.old cols.old))
        (row_outcome result rows.new cols.new) }
{
    carve_slice(
        Carving::Payload(rebuilding),
        payload,
        0,
        base,
        hints,
        rows,
        cols,
    )
}
