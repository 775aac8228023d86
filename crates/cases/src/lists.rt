// Lists that a call is lent: before it each cell tells its place, so that a cell that the call wrote, or did not, is known.
ghost use Rattle.std.specs.Prelude.{◌≡◌, ℕ, ◌<◌, length};
ghost use Rattle.cases.specs.Layout.{cells_of};
ghost use Rattle.cases.specs.Lent.{FilledBy, FilledEach, byte_in, fresh_byte, fresh_in, fresh_word, starts_in, changed_in};
ghost use Rattle.cases.specs.Lent.{fold_step, fold_of};
ghost use Rattle.io.specs.Counts.{IsPrefixLen};

use crate::case::cells;
use sheet::{WORDS_PER_ENTRY, WORDS_PER_ROW};

// What the cells of a list are.
#[derive(Clone, Copy)]
pub enum Cells {
    Bytes,
    Words,
    // Words of rows, and of column entries.
    Rows,
    Entries,
    // Words of `out`: a call writes all of them.
    Out,
}

fn fresh_word(i: usize) -> u64
    ensures { result ≡ fresh_word i }
{
    0x5EED_0000_0000_0000_u64.wrapping_add(i as u64)
}

// No hint code is that high, and no page flag is clear.
fn fresh_byte(i: usize) -> u8
    ensures { result ≡ fresh_byte i }
{
    200 + (i % 50) as u8
}

// Writes what `cell` gives for its place into each of the first cells, as many as are asked or as there are, and says how many.
pub(crate) fn fill<T: Copy, F: Fn(usize) -> T>(list: &mut [T], asked: usize, cell: F) -> usize
    requires { (i : ℕ) → i < asked → F.pre cell i }
    ensures { FilledEach (F.post cell) asked list.new result }
{
    let n = asked.min(list.len());
    for (i, place) in list[..n].iter_mut().enumerate() {
        *place = cell(i);
    }
    n
}

// Fresh cells, as many as the list of the case has, and how many.
pub fn fill_words(list: &mut [u64], case: &[u8], which: usize) -> usize
    ensures prefix_len { IsPrefixLen result list.new }
    ensures cells { FilledBy fresh_word (cells_of case.now which) list.new result }
{
    fill(list, cells(case, which), fresh_word)
}

pub fn fill_bytes(list: &mut [u8], case: &[u8], which: usize) -> usize
    ensures prefix_len { IsPrefixLen result list.new }
    ensures cells { FilledBy fresh_byte (cells_of case.now which) list.new result }
{
    fill(list, cells(case, which), fresh_byte)
}

// Whether a cell holds what it held before the call.
pub fn is_fresh(of: Cells, i: usize, cell: u64) -> bool
    ensures { result ≡ fresh_in of i cell }
{
    match of {
        Cells::Out => false,
        Cells::Bytes => cell == u64::from(fresh_byte(i)),
        Cells::Words | Cells::Rows | Cells::Entries => cell == fresh_word(i),
    }
}

// Whether a row or an entry starts there.
pub fn starts(of: Cells, i: usize) -> bool
    ensures { result ≡ starts_in of i }
{
    match of {
        Cells::Rows => i % WORDS_PER_ROW == 0,
        Cells::Entries => i % WORDS_PER_ENTRY == 0,
        Cells::Bytes | Cells::Words | Cells::Out => false,
    }
}

// How many cells the call changed.
pub fn changed(of: Cells, list: &[u64]) -> u64
    ensures { result ≡ changed_in of list.now }
{
    let mut n = 0;
    for (i, cell) in list.iter().enumerate() {
        if !is_fresh(of, i, *cell) {
            n += 1;
        }
    }
    n
}

// One step of it for each cell; two lists that differ in one cell have folds that differ.
#[tactic(auto, unfolding(crate::specs::Lent::fold_step))]
fn folded(fold: u64, cell: u64) -> u64
    ensures { result ≡ fold_step fold cell }
{
    let sum = fold.wrapping_add(cell);
    let spread = sum.wrapping_add(sum << 10);
    spread ^ (spread >> 6)
}

pub fn fold(list: &[u64]) -> u64
    ensures { result ≡ fold_of list.now }
{
    let mut fold = 0;
    for cell in list {
        fold = folded(fold, *cell);
    }
    fold
}

// Bytes as words, and how many.
pub fn widened(list: &[u8], words: &mut [u64]) -> usize
    ensures prefix_len { IsPrefixLen result words.new }
    ensures cells { FilledBy (byte_in list.now) (length list.now) words.new result }
{
    fill(words, list.len(), |i| u64::from(list[i]))
}
