// Words into lent lists, for our own crates: callers show by proof that there is room.
ghost use Rattle.std.specs.Prelude.{◌≡◌, ◌+◌, ◌*◌, ◌≤◌, length};
ghost use Rattle.std.proofs.lemmas.List.Edits.{sets};
ghost use Rattle.sheet.specs.Columns.{column_words, unused_words};
ghost use Rattle.sheet.specs.Inner.{filled_to};
ghost use Rattle.sheet.specs.Limits.{words_per_row, words_per_entry};
ghost use Rattle.sheet.specs.Row.{row_words};

use crate::columns::Column;
use crate::filled::Filled;
use crate::row::Row;
use crate::{WORDS_PER_ENTRY, WORDS_PER_ROW, columns, row};

// Two lent lists that rows are added to, one of rows and one of their entries in groups of `width`: for how many rows they have room, and
// how many stand there.
#[derive(Drop)]
pub struct Sheet<'a> {
    pub rows: &'a mut [u64],
    pub cols: &'a mut [u64],
    pub width: usize,
    pub room: usize,
    pub n: usize,
}

impl Sheet<'_> {
    // What a call answers whose rows have all found room, or not.
    pub fn filled(&self, added: Option<()>) -> Filled
        ensures { result ≡ filled_to self.now added }
    {
        match added {
            Some(()) => Filled::Done(self.n),
            None => Filled::Full(self.room),
        }
    }
}

// Rows and entries go through this one loop: `copy_from_slice` was tried, and takes three times the instructions for an entry's four words.
pub fn put_words(list: &mut [u64], at: usize, words: &[u64])
    requires { at + length words.now ≤ length list.old }
    ensures { list.new ≡ sets list.old at words.now }
{
    for (i, word) in words.iter().enumerate() {
        list[at + i] = *word;
    }
}

// The row n of a list of rows.
pub fn put_row(rows: &mut [u64], n: usize, row: Row)
    requires { n * words_per_row + words_per_row ≤ length rows.old }
    ensures { rows.new ≡ sets rows.old (n * words_per_row) (row_words row) }
{
    let words = row::words(row);
    put_words(rows, n * WORDS_PER_ROW, &words);
}

pub fn put_column(cols: &mut [u64], at: usize, column: Column)
    requires { at + words_per_entry ≤ length cols.old }
    ensures { cols.new ≡ sets cols.old at (column_words column) }
{
    let words = columns::words(column);
    put_words(cols, at, &words);
}

// Pads a group with n entries.
pub fn put_unused(cols: &mut [u64], at: usize, n: usize)
    requires { at + words_per_entry * n ≤ length cols.old }
    ensures { cols.new ≡ sets cols.old at (unused_words n) }
{
    for k in 0..n {
        put_column(cols, at + WORDS_PER_ENTRY * k, Column::Unused);
    }
}
