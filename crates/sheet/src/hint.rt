// Hints: what a column is said to hold, by a code, and the two tests that every call over columns begins with. Codes are bytes of a lent
// list, as the C interface has them, so any byte may stand there.
ghost use Rattle.std.specs.Prelude.{◌≡◌};
ghost use Rattle.sheet.specs.Limits.{count_fits, hints_known};

use crate::{HIGHEST_HINT, MOST_COLUMNS};

pub const INTEGER: u8 = 0;

pub const REAL: u8 = 1;

pub const TEXT: u8 = 2;

pub const BLOB: u8 = 3;

pub const NULL: u8 = 4;

pub const ANY: u8 = 5;

#[tactic(auto, unfolding(crate::specs::Limits::count_fits))]
pub fn hint_count_fits(count: usize) -> bool
    ensures { result ≡ count_fits count }
{
    1 <= count && count <= MOST_COLUMNS
}

pub fn hints_known(hints: &[u8]) -> bool
    ensures { result ≡ hints_known hints.now }
{
    hints.iter().all(|hint| *hint <= HIGHEST_HINT)
}
