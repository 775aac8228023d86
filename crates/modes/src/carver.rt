// The three modes: a row with its header, one whose header's length is gone, and one whose first four bytes are.
ghost use Rattle.std.specs.Prelude.{◌≡◌, false, ◌+◌, ◌≤◌, length};
ghost use Rattle.modes.specs.Found.{found_hits};
ghost use Rattle.modes.specs.Inner.{TriedIs, TriedFits, tried_hits, Ready};
ghost use Rattle.modes.specs.Modes.{headless_in, normal_at, normal_found, first_col_missing_in, headless_found, modes_found, modes_filling};
ghost use Rattle.sheet.specs.Hits.{FillsRows, row_outcome};
ghost use Rattle.sheet.specs.Inner.{told_by, Adds};
ghost use Rattle.sheet.specs.Limits.{largest_region};

use crate::inner::{Find, Style, add_find, read_types};
use record::varint::Cursor;
use sheet::columns::room;
use sheet::filled::Filled;
use sheet::inner::Sheet;
use sheet::refusal::Refusal;
use sheet::row::{Mode, Source};
use sheet::slice::check_counted;

const LEAST_ROW: usize = 3;
// The bytes that a freeblock's own header writes over.
const GONE: usize = 4;

const NORMAL: Style = Style {
    source: Source::Freelist,
    confidence: 0.8,
    mode: Mode::Normal,
    lost: 0,
};

const COLUMNS_ONLY: Style = Style {
    source: Source::Freelist,
    confidence: 0.5,
    mode: Mode::ColumnsOnly,
    lost: 0,
};

const FIRST_COL_MISSING: Style = Style {
    source: Source::Freelist,
    confidence: 0.3,
    mode: Mode::FirstColMissing,
    lost: 1,
};

// A row whose header is there: its length leads, and the bodies start at its end.
fn try_carve_normal(bytes: &[u8], columns: usize, o: usize) -> Option<Find>
    requires { (o ≤ length bytes.now) × (length bytes.now ≤ largest_region) }
    ensures { TriedIs bytes.now columns (normal_at bytes.now columns o) result }
{
    let (h, next) = Cursor::new(o).header_length(bytes)?;
    let from = next.at;
    if h > (bytes.len() - o) as u64 || (h as usize) < from - o {
        return None;
    }
    let start = o + h as usize;
    let types = read_types(bytes, from, start, columns)?;
    if types.count == 0 {
        return None;
    }
    Some(Find {
        style: NORMAL,
        at: o,
        from,
        count: types.count,
        start,
        padded: next.padded | types.padded,
    })
}

// A row that types lead: the bodies start where the last one ends.
fn try_headless(bytes: &[u8], style: Style, from: usize, most: usize) -> Option<Find>
    requires { (from ≤ length bytes.now) × (length bytes.now ≤ largest_region) × (style.lost ≤ 1) }
    ensures { TriedIs bytes.now (most + style.lost) (headless_in style bytes.now from most) result }
{
    let types = read_types(bytes, from, bytes.len(), most)?;
    if types.count == 0 {
        return None;
    }
    Some(Find {
        style,
        at: 0,
        from,
        count: types.count,
        start: types.end,
        padded: types.padded,
    })
}

// It is read without its first column, which the lost bytes held.
fn try_carve_first_col_missing(bytes: &[u8], columns: usize) -> Option<Find>
    requires { length bytes.now ≤ largest_region }
    ensures { TriedIs bytes.now columns (first_col_missing_in bytes.now columns) result }
{
    if bytes.len() <= GONE || columns < 2 {
        return None;
    }
    try_headless(bytes, FIRST_COL_MISSING, GONE, columns - 1)
}

// Adds the row that was found, if there is one.
fn carve_one(bytes: &[u8], tried: Option<Find>, base: u64, sheet: &mut Sheet<'_>) -> Option<()>
    requires ready { Ready (length bytes.now) base sheet.old }
    requires tried_fits { TriedFits bytes.now sheet.old.width tried }
    ensures { Adds (tried_hits bytes.now base tried) false sheet.old (told_by result sheet.new) sheet.new }
{
    if let Some(find) = tried {
        add_find(bytes, find, base, sheet)?;
    }
    Some(())
}

// Rows with their headers, each where the one before ended.
fn carve_normal(bytes: &[u8], base: u64, sheet: &mut Sheet<'_>) -> Option<()>
    requires { Ready (length bytes.now) base sheet.old }
    ensures { Adds (found_hits (length bytes.now) base (normal_found bytes.now sheet.old.width)) false
        sheet.old (told_by result sheet.new) sheet.new }
{
    let mut o: usize = 0;
    while o + LEAST_ROW <= bytes.len() {
        let Some(find) = try_carve_normal(bytes, sheet.width, o) else {
            break;
        };
        o = add_find(bytes, find, base, sheet)?;
    }
    Some(())
}

// What the two other modes find.
fn carve_headless(bytes: &[u8], base: u64, sheet: &mut Sheet<'_>) -> Option<()>
    requires { Ready (length bytes.now) base sheet.old }
    ensures { Adds (found_hits (length bytes.now) base (headless_found bytes.now sheet.old.width)) false
        sheet.old (told_by result sheet.new) sheet.new }
{
    let whole = try_headless(bytes, COLUMNS_ONLY, 0, sheet.width);
    carve_one(bytes, whole, base, sheet)?;
    let missing = try_carve_first_col_missing(bytes, sheet.width);
    carve_one(bytes, missing, base, sheet)
}

fn carve_modes(bytes: &[u8], base: u64, sheet: &mut Sheet<'_>) -> Option<()>
    requires ready { Ready (length bytes.now) base sheet.old }
    requires empty { sheet.old.n ≡ 0 }
    ensures { Adds (found_hits (length bytes.now) base (modes_found bytes.now sheet.old.width)) false
        sheet.old (told_by result sheet.new) sheet.new }
{
    carve_normal(bytes, base, sheet)?;
    // The other modes are for what this one could not read at all.
    if sheet.n > 0 {
        return Some(());
    }
    carve_headless(bytes, base, sheet)
}

pub fn carve_freeblock(
    data: &[u8],
    base: u64,
    columns: usize,
    rows: &mut [u64],
    cols: &mut [u64],
) -> Result<Filled, Refusal>
    ensures { FillsRows (modes_filling «data».now base columns rows.old cols.old)
        (row_outcome result rows.new cols.new) }
{
    check_counted(data.len(), columns, base)?;
    let room = room(rows.len(), cols.len(), columns);
    // Made in place: of two slices that a call lends for one lifetime, a proof knows only the lengths afterwards.
    let mut sheet = Sheet {
        rows,
        cols,
        width: columns,
        room,
        n: 0,
    };
    let added = carve_modes(data, base, &mut sheet);
    Ok(sheet.filled(added))
}
