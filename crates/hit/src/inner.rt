// Adds a row that was found to both lists, for our own crates: callers show by proof that its types and bodies are there.
ghost use Rattle.std.specs.Prelude.{◌≡◌, false, [], ◌∷◌, ◌+◌, ◌≤◌, length};
ghost use Rattle.attempt.specs.Inner.{found_at};
ghost use Rattle.hit.specs.Hit.{intra_page, hit_of};
ghost use Rattle.hit.specs.Inner.{Laid, hit_there, Fitting, Ready};
ghost use Rattle.sheet.specs.Limits.{largest_region};
ghost use Rattle.sheet.specs.Inner.{told_by, Adds, PutsOne};

use attempt::inner::{Find, put_columns};
use sheet::WORDS_PER_ENTRY;
use sheet::confidence::percent;
use sheet::inner::{Sheet, put_row, put_unused};
use sheet::row::{Mode, Row, Source};

// Of a page: the absolute offset of its first byte, where it starts in the lent slice, and its table's index.
#[derive(Clone, Copy, Debug)]
pub struct Spot {
    pub base: u64,
    pub start: usize,
    pub table: u16,
}

// Where a row comes from: its row id, if there is one, its source, and how far it is to be believed.
#[derive(Clone, Copy, Debug)]
pub struct Origin {
    pub id: Option<u64>,
    pub source: Source,
    pub confidence: f32,
}

// Writes the next row. Its columns are those of the find at o of bytes that lie `by` bytes into the lent slice.
fn put_hit(
    bytes: &[u8],
    o: usize,
    find: Find,
    by: usize,
    columns: usize,
    row: Row,
    sheet: &mut Sheet<'_>,
)
    requires laid { Laid bytes.now o find columns }
    requires bytes_bound { by + length bytes.now ≤ largest_region }
    requires fitting { Fitting columns sheet.old }
    ensures { PutsOne (hit_there bytes.now o find by row) sheet.old sheet.new }
{
    let n = sheet.n;
    let width = sheet.width;
    let group = n * (WORDS_PER_ENTRY * width);
    put_row(sheet.rows, n, row);
    put_columns(bytes, o, find.head, find.from, by, sheet.cols, group);
    put_unused(
        sheet.cols,
        group + WORDS_PER_ENTRY * columns,
        width - columns,
    );
    sheet.n = n + 1;
}

// A row of a page's free space: the percent is of its confidence.
pub fn intra_page(id: Option<u64>, confidence: f32) -> Origin
    ensures { result ≡ intra_page id confidence }
{
    Origin {
        id,
        source: Source::CarvedIntraPage(percent(confidence)),
        confidence,
    }
}

// Adds the row that was found at o of bytes which begin at `part` of a page; none if there is no room.
pub fn add_found(
    bytes: &[u8],
    o: usize,
    find: Find,
    part: usize,
    origin: Origin,
    columns: usize,
    spot: Spot,
    sheet: &mut Sheet<'_>,
) -> Option<()>
    requires laid { Laid bytes.now o find columns }
    requires ready { Ready (part + length bytes.now) columns spot sheet.old }
    ensures { Adds (hit_of spot (part + o) part origin (found_at bytes.now o find) ∷ []) false
        sheet.old (told_by result sheet.new) sheet.new }
{
    if sheet.n >= sheet.room {
        return None;
    }
    let place = part + o;
    let row = Row {
        offset: spot.base + place as u64,
        consumed: find.consumed as u64,
        id: origin.id,
        source: origin.source,
        confidence: origin.confidence,
        mode: Mode::Plain,
        table: spot.table,
        padded: find.padded,
    };
    put_hit(bytes, o, find, spot.start + part, columns, row, sheet);
    Some(())
}
