// Rows at any byte of a region, by the types that a table's columns were learned to have.
ghost use Rattle.std.specs.Prelude.{◌≡◌, false, ◌≤◌, ◌<◌, length};
ghost use Rattle.modes.specs.Found.{types_from, found_hits};
ghost use Rattle.modes.specs.Inner.{TriedIs, Ready};
ghost use Rattle.record.specs.Places.{types_padded};
ghost use Rattle.sheet.specs.Hits.{FillsRows, row_outcome};
ghost use Rattle.sheet.specs.Inner.{told_by, Adds};
ghost use Rattle.sheet.specs.Limits.{most_columns, largest_region};
ghost use Rattle.unalloc.specs.Inner.{Headed, ReadingIs};
ghost use Rattle.unalloc.specs.Learned.{is_integer, is_text, is_blob, matches, learned_style, is_there, attempt_at, rows_found};
ghost use Rattle.unalloc.specs.Learned.{learned_filling};

use modes::inner::{Find, Style, add_find, behind, column_at};
use record::varint::Cursor;
use sheet::MOST_HEADER;
use sheet::columns::{Column, room};
use sheet::confidence::suited_share;
use sheet::filled::Filled;
use sheet::inner::Sheet;
use sheet::refusal::Refusal;
use sheet::row::{Mode, Source};
use sheet::slice::check_counted;

// What the types of a header come to: how many there are, how many match, and whether one is padded.
#[derive(Clone, Copy, Debug)]
struct Reading {
    count: usize,
    matched: usize,
    padded: bool,
}

#[tactic(auto, unfolding(crate::specs::Learned::is_integer))]
fn is_integer(kind: u64) -> bool
    ensures { result ≡ is_integer kind }
{
    matches!(kind, 1..=6 | 8 | 9)
}

#[tactic(auto, unfolding(crate::specs::Learned::is_text))]
fn is_text(kind: u64) -> bool
    ensures { result ≡ is_text kind }
{
    kind >= 13 && kind % 2 == 1
}

#[tactic(auto, unfolding(crate::specs::Learned::is_blob))]
fn is_blob(kind: u64) -> bool
    ensures { result ≡ is_blob kind }
{
    kind >= 12 && kind % 2 == 0
}

#[tactic(auto, unfolding(crate::specs::Learned::matches))]
fn serial_types_compatible(found: u64, learned: u64) -> bool
    ensures { result ≡ matches found learned }
{
    found == learned
        || is_integer(found) && is_integer(learned)
        || is_text(found) && is_text(learned)
        || is_blob(found) && is_blob(learned)
}

fn is_there(column: Column) -> bool
    ensures { result ≡ is_there column }
{
    matches!(column, Column::Body { .. })
}

// Reads the types from `from` on, up to the header's end, where their bodies start; none if a type runs off the region, or a body does not
// fit.
fn read_and_match(region: &[u8], types: &[u64], from: usize, stop: usize) -> Option<Reading>
    requires { Headed region.now types.now from stop }
    ensures { ReadingIs region.now types.now stop
        (types_from (length types.now) region.now from stop)
        (types_padded (length types.now) region.now from stop) result }
{
    let mut at = from;
    let mut padded = false;
    let mut end = stop;
    let mut matched: usize = 0;
    for (count, learned) in types.iter().enumerate() {
        if at >= stop {
            return Some(Reading {
                count,
                matched,
                padded,
            });
        }
        let (kind, next) = Cursor::new(at).serial_type(region)?;
        let column = column_at(region.len(), end, kind);
        if !is_there(column) {
            return None;
        }
        if serial_types_compatible(kind, *learned) {
            matched += 1;
        }
        end = behind(end, column);
        at = next.at;
        // A branch, since a type of one byte is known not to be padded and so costs nothing.
        if next.padded {
            padded = true;
        }
    }
    Some(Reading {
        count: types.len(),
        matched,
        padded,
    })
}

// What is said of a row of which so many types match.
fn learned(matched: usize, columns: usize) -> Style
    requires { (matched ≤ most_columns) × (1 ≤ columns) }
    ensures { result ≡ learned_style matched columns }
{
    let percent = matched * 100 / columns;
    Style {
        source: Source::CarvedUnalloc(percent as u64),
        confidence: suited_share(percent as u16, 100),
        mode: Mode::Plain,
        lost: 0,
    }
}

fn try_parse_record(region: &[u8], types: &[u64], o: usize) -> Option<Find>
    requires o_in_bounds { (o ≤ length region.now) × (length region.now ≤ largest_region) }
    requires types_len_bound { (1 ≤ length types.now) × (length types.now ≤ most_columns) }
    ensures { TriedIs region.now (length types.now)
        (attempt_at region.now types.now o) result }
{
    let (h, next) = Cursor::new(o).header_length(region)?;
    let from = next.at;
    if h > MOST_HEADER || h > (region.len() - o) as u64 || (h as usize) < from - o {
        return None;
    }
    let start = o + h as usize;
    let reading = read_and_match(region, types, from, start)?;
    if reading.matched == 0 {
        return None;
    }
    Some(Find {
        style: learned(reading.matched, types.len()),
        at: o,
        from,
        count: reading.count,
        start,
        padded: next.padded | reading.padded,
    })
}

// Most bytes begin no header: it is empty, or its length is above 512.
fn try_at(region: &[u8], types: &[u64], o: usize) -> Option<Find>
    requires o_in_bounds { (o < length region.now) × (length region.now ≤ largest_region) }
    requires types_len_bound { (1 ≤ length types.now) × (length types.now ≤ most_columns) }
    ensures { TriedIs region.now (length types.now)
        (attempt_at region.now types.now o) result }
{
    match region[o] {
        1..=132 => try_parse_record(region, types, o),
        _ => None,
    }
}

fn carve_rows(region: &[u8], types: &[u64], base: u64, sheet: &mut Sheet<'_>) -> Option<()>
    requires ready { Ready (length region.now) base sheet.old }
    requires types { sheet.old.width ≡ length types.now }
    ensures { Adds (found_hits (length region.now) base (rows_found region.now types.now)) false sheet.old
        (told_by result sheet.new) sheet.new }
{
    let least = 1 + types.len();
    let mut o: usize = 0;
    while o + least <= region.len() {
        o = match try_at(region, types, o) {
            Some(find) => add_find(region, find, base, sheet)?,
            None => o + 1,
        };
    }
    Some(())
}

// `types` are the learned ones, one a column.
pub fn carve_unallocated(
    region: &[u8],
    types: &[u64],
    base: u64,
    rows: &mut [u64],
    cols: &mut [u64],
) -> Result<Filled, Refusal>
    ensures { FillsRows (learned_filling region.now types.now base rows.old cols.old)
        (row_outcome result rows.new cols.new) }
{
    check_counted(region.len(), types.len(), base)?;
    let room = room(rows.len(), cols.len(), types.len());
    // Made in place: of two slices that a call lends for one lifetime, a proof knows only the lengths afterwards.
    let mut sheet = Sheet {
        rows,
        cols,
        width: types.len(),
        room,
        n: 0,
    };
    let added = carve_rows(region, types, base, &mut sheet);
    Ok(sheet.filled(added))
}
