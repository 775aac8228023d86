// Cells that stand whole in a payload, one behind the other.
ghost use Rattle.std.specs.Prelude.{false, ◌+◌, ◌≤◌, ◌<◌, length};
ghost use Rattle.cells.specs.Cells.{cell_at, cell_hits, cells_of};
ghost use Rattle.cells.specs.Inner.{CellIs, cells_there, next_place, GoesTo};
ghost use Rattle.hit.specs.Inner.{Ready};
ghost use Rattle.sheet.specs.Limits.{largest_region};
ghost use Rattle.sheet.specs.Inner.{told_by, Adds};

use attempt::inner::{Find, attempt};
use hit::inner::{Spot, add_found, intra_page};
use record::varint::Cursor;
use sheet::confidence::suited_share;
use sheet::inner::Sheet;

// A cell whose record is a row: where the record starts and ends, its row id, and the row.
#[derive(Clone, Copy, Debug)]
pub struct Cell {
    pub start: usize,
    pub end: usize,
    pub id: u64,
    pub find: Find,
}

// The length of a record, its row id, and the record.
fn cell_at(payload: &[u8], hints: &[u8], pos: usize) -> Option<Cell>
    requires { length payload.now ≤ largest_region }
    ensures { CellIs payload.now hints.now pos result }
{
    let (len, next) = Cursor::new(pos).often_short(payload)?;
    // Most numbers that are no lengths are too large even with no row id.
    if len == 0 || len > (payload.len() - next.at) as u64 {
        return None;
    }
    let (id, behind) = next.often_short(payload)?;
    let start = behind.at;
    // Compared with what is left, since the record's end may pass what a u64 holds.
    if len > (payload.len() - start) as u64 {
        return None;
    }
    let end = start + len as usize;
    let find = attempt(&payload[start..end], hints, 0).ok()?;
    Some(Cell {
        start,
        end,
        id,
        find,
    })
}

// One place: the row of the cell there, if there is one, and where the next is looked for.
fn carve_place(
    payload: &[u8],
    hints: &[u8],
    pos: usize,
    spot: Spot,
    o: usize,
    sheet: &mut Sheet<'_>,
) -> Option<usize>
    requires pos_in_bounds { pos < length payload.now }
    requires ready { Ready (o + length payload.now) (length hints.now) spot sheet.old }
    ensures rows { Adds (cell_hits spot (length hints.now) o (cells_there (cell_at payload.now hints.now pos))) false
        sheet.old (told_by result sheet.new) sheet.new }
    ensures next { GoesTo (next_place pos (cell_at payload.now hints.now pos)) result }
{
    let Some(cell) = cell_at(payload, hints, pos) else {
        return Some(pos + 1);
    };
    let Cell {
        start,
        end,
        id,
        find,
    } = cell;
    // By its fields: passed on whole, it would be copied at each place, found or not.
    let find = Find {
        head: find.head,
        from: find.from,
        consumed: find.consumed,
        matched: find.matched,
        read: find.read,
        padded: find.padded,
    };
    let columns = hints.len();
    let confidence = suited_share(find.matched, columns as u16);
    let origin = intra_page(Some(id), confidence);
    add_found(
        &payload[start..end],
        0,
        find,
        o + start,
        origin,
        columns,
        spot,
        sheet,
    )?;
    Some(end)
}

// The cells of a payload that stands at o in its page.
pub fn carve_cells(
    payload: &[u8],
    hints: &[u8],
    spot: Spot,
    o: usize,
    sheet: &mut Sheet<'_>,
) -> Option<()>
    requires { Ready (o + length payload.now) (length hints.now) spot sheet.old }
    ensures { Adds (cell_hits spot (length hints.now) o (cells_of payload.now hints.now)) false sheet.old
        (told_by result sheet.new) sheet.new }
{
    let mut pos = 0;
    while pos < payload.len() {
        pos = carve_place(payload, hints, pos, spot, o, sheet)?;
    }
    Some(())
}
