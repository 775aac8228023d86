// Records whose header's length is lost: each start of a payload is tried.
ghost use Rattle.std.specs.Prelude.{false, ◌+◌, ◌≤◌, length};
ghost use Rattle.cells.specs.Cells.{cells_of, starts_of, start_hits, rebuilt_from};
ghost use Rattle.cells.specs.Inner.{Standing};
ghost use Rattle.hit.specs.Inner.{Ready};
ghost use Rattle.rebuild.specs.Header.{most_by, rebuilt as rebuilt_at};
ghost use Rattle.starts.specs.Starts.{rebuilt_starts};
ghost use Rattle.sheet.specs.Inner.{told_by, Adds};

use attempt::inner::Find;
use hit::inner::{Spot, add_found, intra_page};
use rebuild::inner::rebuild;
use rebuild::rebuilding::Rebuilding;
use sheet::confidence::{rebuilt, suited_share};
use sheet::inner::Sheet;
use starts::inner::{next_cell, next_start, starts_of};

// One start, at which no record of a cell starts: the row that is rebuilt there, if there is one.
fn carve_start(
    how: Rebuilding,
    payload: &[u8],
    hints: &[u8],
    v: usize,
    spot: Spot,
    o: usize,
    sheet: &mut Sheet<'_>,
) -> Option<()>
    requires v_in_bounds { (v ≤ length payload.now) × (length hints.now ≤ most_by how) }
    requires ready { Ready (o + length payload.now) (length hints.now) spot sheet.old }
    ensures { Adds (start_hits spot (length hints.now) o v false (rebuilt_at how payload.now hints.now v)) false
        sheet.old (told_by result sheet.new) sheet.new }
{
    let Some(find) = rebuild(how, payload, hints, v) else {
        return Some(());
    };
    // By its fields: passed on whole, it would be copied at each start, found or not.
    let find = Find {
        head: find.head,
        from: find.from,
        consumed: find.consumed,
        matched: find.matched,
        read: find.read,
        padded: find.padded,
    };
    let columns = hints.len();
    let confidence = rebuilt(suited_share(find.matched, columns as u16));
    let origin = intra_page(None, confidence);
    add_found(payload, v, find, o, origin, columns, spot, sheet)
}

// The rows that are rebuilt, behind those of the cells, of which the first is the row `first`.
pub fn carve_rebuilt(
    how: Rebuilding,
    payload: &[u8],
    hints: &[u8],
    spot: Spot,
    o: usize,
    first: usize,
    sheet: &mut Sheet<'_>,
) -> Option<()>
    requires hints_len_bound { length hints.now ≤ most_by how }
    requires ready { Ready (o + length payload.now) (length hints.now) spot sheet.old }
    requires standing { Standing spot o sheet.old.rows.now sheet.old.n first (starts_of (cells_of payload.now hints.now)) }
    ensures { Adds (rebuilt_from (rebuilt_starts (length payload.now) (length hints.now)) how spot o
        (starts_of (cells_of payload.now hints.now)) payload.now hints.now 0) false sheet.old
        (told_by result sheet.new) sheet.new }
{
    let starts = starts_of(payload.len(), hints.len());
    let offset = spot.base + o as u64;
    let cells = sheet.n;
    let mut v = 0;
    let mut k = first;
    loop {
        // Lent again first: of a field that is passed on itself no element is known afterwards.
        let rows = &mut *sheet.rows;
        let next = next_cell(rows, k, cells);
        let at = next_start(how, payload, hints, next, offset, v, starts);
        if at >= starts {
            return Some(());
        }
        if next == Some(offset + at as u64) {
            k += 1;
        } else {
            carve_start(how, payload, hints, at, spot, o, sheet)?;
        }
        v = at + 1;
    }
}
