// What the sheet is made of: rows and column entries as words of lent lists, confidences, hints, and the answers with their refusals.
// The region scan uses a part of it: `Freelist` to `CarvedUnalloc`, the three modes, `freed`, `rebuilt`, `percent` and `put_unused` are
// the other carvers'.
#![tactic(auto)]

pub mod answer;
pub mod columns;
pub mod confidence;
pub mod filled;
pub mod hint;
pub mod inner;
pub mod refusal;
pub mod row;
pub mod slice;

// The numbers that the paper fixes.
pub const MOST_COLUMNS: usize = 510;

pub const WORDS_PER_ROW: usize = 9;

pub const WORDS_PER_ENTRY: usize = 4;
// In bytes.
pub const LARGEST_REGION: usize = 16_777_216;
// 2 to the power of 48.
pub const LARGEST_BASE: u64 = 281_474_976_710_656;

// In bytes, and so is the next.
pub const MOST_HEADER: u64 = 512;

pub const LARGEST_STATEMENT: usize = 65_536;

pub const MOST_TABLES: usize = 1_024;
// To learn from.
pub const MOST_ROWS: usize = 1_024;

pub const HIGHEST_HINT: u8 = hint::ANY;
