// Rows in the freeblocks of pages: of tables, of a page by its number, and of a page slice.
ghost use Rattle.std.specs.Prelude.{◌≡◌};
ghost use Rattle.carving.specs.Calls.{slice_asked, slice_filling, numbered_asked, numbered_filling};
ghost use Rattle.carving.specs.declared.inner.Carving.TheVariants.{Freeblocks};
ghost use Rattle.phsarodil.specs.Returns.{row_return, filled_rows, tables_return, carved_tables};
ghost use Rattle.tables.specs.Calls.{asked};

use carving::freeblocks::{recover_page_freeblocks, recover_slice_freeblocks};
use sheet::answer::Answer;
use tables::freeblocks::recover_freeblocks;

#[unsafe(no_mangle)]
pub extern "C" fn phs_recover_freeblocks(
    db: &[u8],
    size: u64,
    roots: &[u64],
    counts: &[u64],
    hints: &[u8],
    flags: &mut [u8],
    stack: &mut [u64],
    rows: &mut [u64],
    cols: &mut [u64],
    out: &mut [u64; 1],
) -> u64
    ensures { tables_return result out.new flags.new stack.new rows.new cols.new ≡ carved_tables
        (asked Freeblocks db.now size roots.now counts.now hints.now flags.old stack.old rows.old cols.old) }
{
    let walked = recover_freeblocks(db, size, roots, counts, hints, flags, stack, rows, cols);
    *out = [walked.written()];
    walked.number()
}

#[unsafe(no_mangle)]
pub extern "C" fn phs_recover_page_freeblocks(
    db: &[u8],
    size: u64,
    page: u64,
    hints: &[u8],
    rows: &mut [u64],
    cols: &mut [u64],
    out: &mut [u64; 1],
) -> u64
    ensures { row_return result out.new rows.new cols.new ≡ filled_rows
        (numbered_filling (numbered_asked Freeblocks db.now size page hints.now rows.old cols.old)) }
{
    let filled = recover_page_freeblocks(db, size, page, hints, rows, cols);
    *out = [filled.written()];
    filled.number()
}

#[unsafe(no_mangle)]
pub extern "C" fn phs_recover_slice_freeblocks(
    page: &[u8],
    head: usize,
    base: u64,
    hints: &[u8],
    rows: &mut [u64],
    cols: &mut [u64],
    out: &mut [u64; 1],
) -> u64
    ensures { row_return result out.new rows.new cols.new ≡ filled_rows
        (slice_filling (slice_asked Freeblocks page.now head base hints.now rows.old cols.old)) }
{
    let filled = recover_slice_freeblocks(page, head, base, hints, rows, cols);
    *out = [filled.written()];
    filled.number()
}
