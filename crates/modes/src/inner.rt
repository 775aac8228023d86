// Types up to a count, their bodies, and the words of a row, for our own crates: callers show by proof that there is room.
ghost use Rattle.std.specs.Prelude.{◌≡◌, false, [], ◌∷◌, ◌+◌, ◌*◌, ◌≤◌, ◌<◌, length};
ghost use Rattle.std.proofs.lemmas.List.Edits.{sets};
ghost use Rattle.modes.specs.Found.{types_from, column_at, behind as behind_of, columns_from, end_from, lost_columns, end_of, found_hit};
ghost use Rattle.modes.specs.Inner.{kinds_at, TypesAre, found_in, Fitting, Adding, EndsAt};
ghost use Rattle.record.specs.Places.{types_padded};
ghost use Rattle.sheet.specs.Inner.{told_by, Adds, PutsOne};
ghost use Rattle.sheet.specs.Limits.{words_per_entry, largest_region};
ghost use Rattle.sheet.specs.Sheet.{columns_words};

use record::record::body_length;
use record::varint::Cursor;
use sheet::WORDS_PER_ENTRY;
use sheet::columns::Column;
use sheet::inner::{Sheet, put_column, put_row, put_unused};
use sheet::row::{Mode, Row, Source};

// What a way of carving says of each of its rows: beside three of a row's words, how many columns, one at most, are lost before those that
// are read.
#[derive(Clone, Copy, Debug)]
pub struct Style {
    pub source: Source,
    pub confidence: f32,
    pub mode: Mode,
    pub lost: usize,
}

// A row that was found: its place, where its types start and how many there are, where its bodies start, and whether a number of its
// header is padded.
#[derive(Clone, Copy, Debug)]
pub struct Find {
    pub style: Style,
    pub at: usize,
    pub from: usize,
    pub count: usize,
    pub start: usize,
    pub padded: bool,
}

// How many types were read, where reading them ended, and whether one is padded.
#[derive(Clone, Copy, Debug)]
pub struct TypesRead {
    pub count: usize,
    pub end: usize,
    pub padded: bool,
}

// Reads types from a place on, while the place is below `stop`; none if one runs off the slice.
pub fn read_types(bytes: &[u8], from: usize, stop: usize, most: usize) -> Option<TypesRead>
    ensures { TypesAre (types_from most bytes.now from stop) (types_padded most bytes.now from stop) result }
{
    let mut at = from;
    let mut padded = false;
    for count in 0..most {
        if at >= stop {
            return Some(TypesRead {
                count,
                end: at,
                padded,
            });
        }
        let (_, next) = Cursor::new(at).serial_type(bytes)?;
        at = next.at;
        // A branch, since a type of one byte is known not to be padded and so costs nothing.
        if next.padded {
            padded = true;
        }
    }
    Some(TypesRead {
        count: most,
        end: at,
        padded,
    })
}

// The column of a type whose body would stand at a place of a slice of `len` bytes.
pub fn column_at(len: usize, at: usize, kind: u64) -> Column
    requires { at ≤ len }
    ensures value { result ≡ column_at len at kind }
    ensures inside { behind_of at result ≤ len }
{
    match body_length(kind) {
        Some(n) if n <= len - at => Column::Body {
            kind,
            start: at as u64,
            len: n as u64,
        },
        _ => Column::Unfit(kind),
    }
}

// Where the next body starts: one that does not fit moves nothing.
pub fn behind(at: usize, column: Column) -> usize
    requires { behind_of at column ≤ largest_region }
    ensures { result ≡ behind_of at column }
{
    match column {
        Column::Body { len, .. } => at + len as usize,
        _ => at,
    }
}

// Writes the columns of types that stand one behind the other, and answers where the last body ends.
fn put_bodies(
    bytes: &[u8],
    from: usize,
    count: usize,
    start: usize,
    cols: &mut [u64],
    first: usize,
) -> usize
    requires start_in_bounds { (start ≤ length bytes.now) × (length bytes.now ≤ largest_region) }
    requires count_in_bounds { first + words_per_entry * count ≤ length cols.old }
    ensures end { result ≡ end_from (length bytes.now) start (kinds_at count bytes.now from) }
    ensures cols { cols.new ≡ sets cols.old first
        (columns_words (columns_from (length bytes.now) start (kinds_at count bytes.now from))) }
{
    let mut at = from;
    let mut end = start;
    for k in 0..count {
        let Some((kind, next)) = Cursor::new(at).serial_type(bytes) else {
            break;
        };
        let column = column_at(bytes.len(), end, kind);
        put_column(cols, first + WORDS_PER_ENTRY * k, column);
        end = behind(end, column);
        at = next.at;
    }
    end
}

fn put_lost(cols: &mut [u64], at: usize, lost: usize)
    requires lost_bound { lost ≤ 1 }
    requires lost_in_bounds { at + words_per_entry * lost ≤ length cols.old }
    ensures { cols.new ≡ sets cols.old at (columns_words (lost_columns lost)) }
{
    if lost > 0 {
        put_column(cols, at, Column::Lost);
    }
}

// Writes a row for which there is room, and answers where its last body ends.
pub fn put_find(bytes: &[u8], find: Find, base: u64, sheet: &mut Sheet<'_>) -> usize
    requires { Fitting bytes.now find base sheet.old }
    ensures end { result ≡ end_of (length bytes.now) (found_in bytes.now find) }
    ensures row { PutsOne (found_hit (length bytes.now) base (found_in bytes.now find)) sheet.old sheet.new }
{
    let Style {
        source,
        confidence,
        mode,
        lost,
    } = find.style;
    let n = sheet.n;
    let width = sheet.width;
    let group = n * (WORDS_PER_ENTRY * width);
    put_lost(sheet.cols, group, lost);
    let first = group + WORDS_PER_ENTRY * lost;
    let end = put_bodies(bytes, find.from, find.count, find.start, sheet.cols, first);
    let used = lost + find.count;
    put_unused(sheet.cols, group + WORDS_PER_ENTRY * used, width - used);
    let row = Row {
        offset: base + find.at as u64,
        consumed: (end - find.at) as u64,
        id: None,
        source,
        confidence,
        mode,
        table: 0,
        padded: find.padded,
    };
    put_row(sheet.rows, n, row);
    sheet.n = n + 1;
    end
}

// Adds a row, and answers where its last body ends; none if there is no room.
pub fn add_find(bytes: &[u8], find: Find, base: u64, sheet: &mut Sheet<'_>) -> Option<usize>
    requires { Adding bytes.now find base sheet.old }
    ensures end { EndsAt (end_of (length bytes.now) (found_in bytes.now find)) result }
    ensures row { Adds (found_hit (length bytes.now) base (found_in bytes.now find) ∷ []) false sheet.old
        (told_by result sheet.new) sheet.new }
{
    if sheet.n >= sheet.room {
        return None;
    }
    Some(put_find(bytes, find, base, sheet))
}
