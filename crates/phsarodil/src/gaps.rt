// Rows in the free space of pages: of tables, of a page by its number, of a page slice, and of the payload of one freed block. Each takes
// the code of the way in which headers are rebuilt; 0 is in none.
ghost use Rattle.std.specs.Prelude.{◌≡◌, length};
ghost use Rattle.carving.specs.Calls.{slice_asked, slice_filling, numbered_asked, numbered_filling};
ghost use Rattle.carving.specs.declared.inner.Carving.TheVariants.{Gaps, Payload};
ghost use Rattle.phsarodil.specs.Returns.{row_return, filled_rows, refused_rows, tables_return, carved_tables, refused_tables};
ghost use Rattle.rebuild.specs.Ways.{named as way_named, by_name, unnamed_number};
ghost use Rattle.sheet.specs.Limits.{count_fits};
ghost use Rattle.tables.specs.Calls.{asked};
ghost use Rattle.walk.specs.Carve.{counts_fit};

use carving::gaps::{parse_cells_from_freeblock, scan_page_gap, scan_single_page_gap};
use rebuild::rebuilding::Rebuilding;
use rebuild::ways::unnamed;
use sheet::answer::Answer;
use sheet::hint::hint_count_fits;
use tables::gaps::scan_page_gaps;
use walk::inner::checks::counts_fit;

#[unsafe(no_mangle)]
pub extern "C" fn phs_scan_page_gaps(
    rebuilding: u64,
    db: &[u8],
    size: u64,
    roots: &[u64],
    counts: &[u64],
    hints: &[u8],
    flags: &mut [u8],
    stack: &mut [u64],
    rows: &mut [u64],
    cols: &mut [u64],
    out: &mut [u64; 1],
) -> u64
    ensures { tables_return result out.new flags.new stack.new rows.new cols.new ≡ by_name (way_named rebuilding)
        (λ how. carved_tables (asked (Gaps how) db.now size roots.now counts.now hints.now flags.old stack.old rows.old cols.old))
        (refused_tables (unnamed_number (counts_fit counts.now)) flags.old stack.old rows.old cols.old) }
{
    let Ok(how) = Rebuilding::try_from(rebuilding) else {
        *out = [0];
        return unnamed(counts_fit(counts)).number();
    };
    let walked = scan_page_gaps(
        how, db, size, roots, counts, hints, flags, stack, rows, cols,
    );
    *out = [walked.written()];
    walked.number()
}

#[unsafe(no_mangle)]
pub extern "C" fn phs_scan_page_gap(
    rebuilding: u64,
    db: &[u8],
    size: u64,
    page: u64,
    hints: &[u8],
    rows: &mut [u64],
    cols: &mut [u64],
    out: &mut [u64; 1],
) -> u64
    ensures { row_return result out.new rows.new cols.new
        ≡ by_name (way_named rebuilding) (λ how. filled_rows (numbered_filling
        (numbered_asked (Gaps how) db.now size page hints.now rows.old cols.old)))
        (refused_rows (unnamed_number (count_fits (length hints.now))) rows.old cols.old) }
{
    let Ok(how) = Rebuilding::try_from(rebuilding) else {
        *out = [0];
        return unnamed(hint_count_fits(hints.len())).number();
    };
    let filled = scan_page_gap(how, db, size, page, hints, rows, cols);
    *out = [filled.written()];
    filled.number()
}

#[unsafe(no_mangle)]
pub extern "C" fn phs_scan_single_page_gap(
    rebuilding: u64,
    page: &[u8],
    head: usize,
    base: u64,
    hints: &[u8],
    rows: &mut [u64],
    cols: &mut [u64],
    out: &mut [u64; 1],
) -> u64
    ensures { row_return result out.new rows.new cols.new
        ≡ by_name (way_named rebuilding) (λ how. filled_rows (slice_filling
        (slice_asked (Gaps how) page.now head base hints.now rows.old cols.old)))
        (refused_rows (unnamed_number (count_fits (length hints.now))) rows.old cols.old) }
{
    let Ok(how) = Rebuilding::try_from(rebuilding) else {
        *out = [0];
        return unnamed(hint_count_fits(hints.len())).number();
    };
    let filled = scan_single_page_gap(how, page, head, base, hints, rows, cols);
    *out = [filled.written()];
    filled.number()
}

#[unsafe(no_mangle)]
pub extern "C" fn phs_parse_cells_from_freeblock(
    rebuilding: u64,
    payload: &[u8],
    base: u64,
    hints: &[u8],
    rows: &mut [u64],
    cols: &mut [u64],
    out: &mut [u64; 1],
) -> u64
    ensures { row_return result out.new rows.new cols.new
        ≡ by_name (way_named rebuilding) (λ how. filled_rows (slice_filling
        (slice_asked (Payload how) payload.now 0 base hints.now rows.old cols.old)))
        (refused_rows (unnamed_number (count_fits (length hints.now))) rows.old cols.old) }
{
    let Ok(how) = Rebuilding::try_from(rebuilding) else {
        *out = [0];
        return unnamed(hint_count_fits(hints.len())).number();
    };
    let filled = parse_cells_from_freeblock(how, payload, base, hints, rows, cols);
    *out = [filled.written()];
    filled.number()
}
