// One attempt as a call, and the region scan.
ghost use Rattle.std.specs.Prelude.{Ok, ◌≡◌, ◌+◌, ◌≤◌, length};
ghost use Rattle.attempt.specs.Attempt.{kinds};
ghost use Rattle.attempt.specs.Inner.{sizes, find_types, Headed, found_at};
ghost use Rattle.scan.specs.Inner.{Fit, RoomFor, Written, EmptyFor, SameLists, Ran};
ghost use Rattle.scan.specs.Once.{once_hits, once_filling};
ghost use Rattle.scan.specs.Scan.{scan_asked, scan_outcome, ScansRegion};
ghost use Rattle.sheet.specs.Answer.{end_number, end_written};
ghost use Rattle.sheet.specs.Hits.{FillsRows, row_outcome};
ghost use Rattle.sheet.specs.Inner.{FilledIs};
ghost use Rattle.sheet.specs.Limits.{most_columns, largest_region, largest_base};

use attempt::inner::{Find, attempt, put_columns};
use filter::inner::{High, last_of, next_row};
use sheet::WORDS_PER_ENTRY;
use sheet::answer::Answer;
use sheet::columns::room;
use sheet::confidence::suited_share;
use sheet::filled::Filled;
use sheet::inner::{Sheet, put_row};
use sheet::refusal::Refusal;
use sheet::row::{Mode, Row, Source};
use sheet::slice::check_slice;

// What a scan comes to: its rows, where it ended, which is at the row that found no room or behind the region, and the header bytes that
// were read at the offsets that it finished with.
#[derive(Clone, Copy, Debug, PartialEq, Eq)]
pub struct Scanned {
    pub rows: Filled,
    pub place: usize,
    pub read: usize,
}

impl Answer for Scanned {
    ghost number_of = { λ x. end_number x.rows };

    ghost written_of = { λ x. end_written x.rows };

    fn number(self) -> u64 {
        self.rows.number()
    }

    fn written(self) -> u64 {
        self.rows.written()
    }
}

// Writes the row at o as the next of the sheet.
fn put_found(bytes: &[u8], base: u64, o: usize, find: Find, sheet: &mut Sheet<'_>)
    requires limits_kept { (sheet.old.width ≤ most_columns) × (base ≤ largest_base) × (length bytes.now ≤ largest_region) }
    requires headed { Headed bytes.now o find.head find.from }
    requires find_in_bounds { o + find.head + sizes (kinds (find_types bytes.now o find)) ≤ length bytes.now }
    requires find_len { length (kinds (find_types bytes.now o find)) ≡ sheet.old.width }
    requires room_for { RoomFor sheet.old }
    ensures { Written base o (found_at bytes.now o find) sheet.old sheet.new }
{
    let n = sheet.n;
    let columns = sheet.width;
    let row = Row {
        offset: base + o as u64,
        consumed: find.consumed as u64,
        id: None,
        source: Source::Scan,
        confidence: suited_share(find.matched, columns as u16),
        mode: Mode::Plain,
        table: 0,
        padded: find.padded,
    };
    let k = n * (WORDS_PER_ENTRY * columns);
    put_row(sheet.rows, n, row);
    put_columns(bytes, o, find.head, find.from, 0, sheet.cols, k);
    sheet.n = n + 1;
}

fn run(bytes: &[u8], hints: &[u8], base: u64, start: usize, sheet: &mut Sheet<'_>) -> Scanned
    requires fit { Fit bytes.now hints.now base }
    requires empty { EmptyFor (length hints.now) sheet.old }
    ensures same_lists { SameLists sheet.old sheet.new }
    ensures ran { Ran
        bytes.now hints.now base start sheet.old.room sheet.old.rows.now sheet.old.cols.now
        (scan_outcome (Ok result) sheet.new.rows.now sheet.new.cols.now) }
{
    let last = last_of(bytes.len());
    let mut o = start;
    let mut read: usize = 0;
    let mut met = High { from: 0, to: 0 };
    loop {
        let next = next_row(bytes, hints, o, last, met);
        read += next.read;
        let Some(row) = next.row else {
            return Scanned {
                rows: Filled::Done(sheet.n),
                place: bytes.len(),
                read,
            };
        };
        let at = row.at;
        if sheet.n >= sheet.room {
            return Scanned {
                rows: Filled::Full(sheet.n),
                place: at,
                read,
            };
        }
        let find = row.find;
        put_found(bytes, base, at, find, sheet);
        read += find.read;
        o = at + find.consumed;
        met = row.run;
    }
}

pub fn scan_region(
    region: &[u8],
    hints: &[u8],
    base: u64,
    start: usize,
    rows: &mut [u64],
    cols: &mut [u64],
) -> Result<Scanned, Refusal>
    ensures { ScansRegion
        (scan_asked region.now hints.now base start rows.old cols.old)
        (scan_outcome result rows.new cols.new) }
{
    check_slice(region.len(), hints, base)?;
    let width = hints.len();
    let room = room(rows.len(), cols.len(), width);
    let mut sheet = Sheet {
        rows,
        cols,
        width,
        room,
        n: 0,
    };
    Ok(run(region, hints, base, start, &mut sheet))
}

// One attempt at o; its row, if there is one, is the first of the sheet. What calls it and what calls `run` repeat the checks and the
// sheet: of a sheet that a function makes of two lent lists a proof knows only how long they are.
fn once(bytes: &[u8], hints: &[u8], base: u64, o: usize, sheet: &mut Sheet<'_>) -> Filled
    requires fit { Fit bytes.now hints.now base }
    requires empty { EmptyFor (length hints.now) sheet.old }
    ensures same_lists { SameLists sheet.old sheet.new }
    ensures filled { FilledIs
        (once_hits bytes.now hints.now base o) (length hints.now) sheet.old.rows.now
        sheet.old.cols.now (row_outcome (Ok result) sheet.new.rows.now sheet.new.cols.now) }
{
    if o > bytes.len() {
        return Filled::Done(0);
    }
    let Ok(find) = attempt(bytes, hints, o) else {
        return Filled::Done(0);
    };
    if sheet.room == 0 {
        return Filled::Full(0);
    }
    put_found(bytes, base, o, find, sheet);
    Filled::Done(1)
}

pub fn try_parse_record(
    region: &[u8],
    hints: &[u8],
    base: u64,
    offset: usize,
    rows: &mut [u64],
    cols: &mut [u64],
) -> Result<Filled, Refusal>
    ensures { FillsRows
        (once_filling region.now hints.now base offset rows.old cols.old)
        (row_outcome result rows.new cols.new) }
{
    check_slice(region.len(), hints, base)?;
    let width = hints.len();
    let room = room(rows.len(), cols.len(), width);
    let mut sheet = Sheet {
        rows,
        cols,
        width,
        room,
        n: 0,
    };
    Ok(once(region, hints, base, offset, &mut sheet))
}
