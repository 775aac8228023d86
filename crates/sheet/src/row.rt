// A row that was found, and the nine words that say it in a lent list.
ghost use Rattle.std.specs.Prelude.{◌≡◌, ◌+◌, ◌*◌};
ghost use Rattle.sheet.specs.Row.{source_code, source_percent, mode_code, row_words};

use crate::WORDS_PER_ROW;
use std::num::f32_to_bits_with_nan;

// Where a row was found, with its percent where there is one.
#[derive(Clone, Copy, Debug, PartialEq, Eq)]
pub enum Source {
    Scan,
    Freelist,
    CarvedIntraPage(u64),
    CarvedUnalloc(u64),
}

// Which of the three modes read the row, each by its number.
#[derive(Clone, Copy, Debug, PartialEq, Eq)]
pub enum Mode {
    // None of them.
    Plain = 0,
    Normal = 1,
    ColumnsOnly = 2,
    FirstColMissing = 3,
}

#[derive(Clone, Copy, Debug)]
pub struct Row {
    pub offset: u64,
    pub consumed: u64,
    // Its 64 bits, where there is one.
    pub id: Option<u64>,
    pub source: Source,
    pub confidence: f32,
    pub mode: Mode,
    // A u16, so that four times it fits a word.
    pub table: u16,
    // Whether a number of its header is padded, which SQLite's are not.
    pub padded: bool,
}

// The numbers of a row's words. A cast would give the first of a case without a percent alone, and no derive gives the second.
impl Source {
    fn code(self) -> u64
        ensures { result ≡ source_code self }
    {
        match self {
            Source::Scan => 0,
            Source::Freelist => 1,
            Source::CarvedIntraPage(_) => 2,
            Source::CarvedUnalloc(_) => 3,
        }
    }

    fn percent(self) -> u64
        ensures { result ≡ source_percent self }
    {
        match self {
            Source::Scan | Source::Freelist => 0,
            Source::CarvedIntraPage(percent) | Source::CarvedUnalloc(percent) => percent,
        }
    }
}

// The mode stands below the table's index.
fn mode_word(mode: Mode, table: u16) -> u64
    ensures { result ≡ mode_code mode + 4 * table }
{
    mode as u64 + 4 * table as u64
}

pub fn words(row: Row) -> [u64; WORDS_PER_ROW]
    ensures { result ≡ row_words row }
{
    [
        row.offset,
        row.consumed,
        row.id.is_some() as u64,
        row.id.unwrap_or(0),
        row.source.code(),
        row.source.percent(),
        f32_to_bits_with_nan(row.confidence) as u64,
        mode_word(row.mode, row.table),
        row.padded as u64,
    ]
}
