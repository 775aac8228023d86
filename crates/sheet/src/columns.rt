// A column of a row, the four words that say it in a lent list, and how many rows two lent lists hold.
ghost use Rattle.std.specs.Prelude.{◌≡◌, [], ◌∷◌};
ghost use Rattle.sheet.specs.Columns.{column_words, room_of};

use crate::{WORDS_PER_ENTRY, WORDS_PER_ROW};
use record::entry::{BODY, LOST, UNFIT, UNUSED};

// A case for each state of an entry.
#[derive(Clone, Copy, Debug, PartialEq, Eq)]
pub enum Column {
    // The serial type, and where the body lies in the lent slice.
    Body { kind: u64, start: u64, len: u64 },
    // The type is kept.
    Unfit(u64),
    Lost,
    Unused,
}

fn entry(state: u64, kind: u64, start: u64, len: u64) -> [u64; WORDS_PER_ENTRY]
    ensures { result ≡ state ∷ kind ∷ start ∷ len ∷ [] }
{
    [state, kind, start, len]
}

#[tactic(auto, unfolding(crate::specs::Columns::column_words))]
pub fn words(column: Column) -> [u64; WORDS_PER_ENTRY]
    ensures { result ≡ column_words column }
{
    match column {
        Column::Body { kind, start, len } => entry(BODY, kind, start, len),
        Column::Unfit(kind) => entry(UNFIT, kind, 0, 0),
        Column::Lost => entry(LOST, 0, 0, 0),
        Column::Unused => entry(UNUSED, 0, 0, 0),
    }
}

// How many rows fit, each with a group of `width` entries.
#[tactic(auto, using(crate::proofs::Laws::room_least), unfolding(crate::specs::Columns::room_of))]
pub fn room(rows: usize, cols: usize, width: usize) -> usize
    ensures { result ≡ room_of rows cols width }
{
    let whole = rows / WORDS_PER_ROW;
    // A group without entries takes no words.
    if width == 0 {
        return whole;
    }
    // Two divisions, since the words of a group may pass what a usize holds.
    whole.min(cols / WORDS_PER_ENTRY / width)
}
