// One part of the list: a scan into short lists, and the text of what it found.
ghost use Rattle.std.specs.Prelude.{◌≡◌, length, IfOk};
ghost use Rattle.listing.specs.Part.{row_space, col_space, text_space, part_outcome, ListsPart};
ghost use Rattle.io.specs.Counts.{IsPrefixLen};
ghost use Rattle.scan.specs.Scan.{scan_asked};

use crate::inner::{LONGEST_LINE, put_rows};
use digits::inner::Text;
use scan::schema_sig::{Scanned, scan_region};
use sheet::answer::Answer;
use sheet::refusal::Refusal;
use sheet::{MOST_COLUMNS, WORDS_PER_ENTRY, WORDS_PER_ROW};

// How many rows a part has at the most, with their words, their groups and their lines.
const PART_ROWS: usize = 8;

pub const ROW_WORDS: usize = PART_ROWS * WORDS_PER_ROW;

pub const COL_WORDS: usize = PART_ROWS * WORDS_PER_ENTRY * MOST_COLUMNS;

pub const TEXT_BYTES: usize = PART_ROWS * LONGEST_LINE;

// What a caller lends: of each array only the length matters.
pub fn row_space() -> [u64; ROW_WORDS]
    ensures { row_space ≡ length result }
{
    [0; ROW_WORDS]
}

pub fn col_space() -> [u64; COL_WORDS]
    ensures { col_space ≡ length result }
{
    [0; COL_WORDS]
}

pub fn text_space() -> [u8; TEXT_BYTES]
    ensures { text_space ≡ length result }
{
    [0; TEXT_BYTES]
}

#[derive(Clone, Copy, Debug, PartialEq, Eq)]
pub struct Totals {
    pub rows: u64,
    pub read: u64,
}

#[derive(Clone, Copy, Debug, PartialEq, Eq)]
pub struct Part {
    pub found: Scanned,
    // How long its text is.
    pub len: usize,
}

pub fn list_part(
    region: &[u8],
    hints: &[u8],
    start: usize,
    rows: &mut [u64; ROW_WORDS],
    cols: &mut [u64; COL_WORDS],
    out: &mut [u8; TEXT_BYTES],
) -> Result<Part, Refusal>
    ensures lists_part { ListsPart
        (scan_asked region.now hints.now 0 start rows.old cols.old) out.old
        (part_outcome result rows.new cols.new out.new) }
    ensures within { IfOk result (λ part. IsPrefixLen part.len out.new) }
{
    let found = scan_region(region, hints, 0, start, rows, cols)?;
    let mut text = Text::new(out);
    let count = found.rows.written() as usize;
    put_rows(&mut text, rows, cols, hints.len(), count);
    let len = text.len;
    Ok(Part { found, len })
}
