// A case: a head of words, its name, and the bytes of its slices, one behind the other.
ghost use Rattle.std.specs.Prelude.{◌≡◌, ◌+◌, ◌*◌, ◌/◌, ◌^◌, ◌<◌, length};
ghost use Rattle.io.specs.Counts.{IsPrefixLen};
ghost use Rattle.cases.specs.Layout.{word_at, word_of, call_of, agreed_of, number_of, cells_of, end_of};
ghost use Rattle.cases.specs.Layout.{part_of, name_of, slice_of, is_whole};
ghost use Rattle.cases.specs.Lent.{FilledBy, word_in};

use crate::lists::fill;
use record::inner::big_endian;

// Bytes of a head, and of a case at most;
pub const HEAD: usize = 160;

pub const CASE: usize = 100_000;

// cells of a list, and words of a slice, at most.
pub const CELLS: usize = 4_096;

pub const WORDS: usize = 2_400;

// Slices of a case.
const SLICES: usize = 5;

// Where the words of a head stand:
const CALL: usize = 0;

const RUST: usize = 152;

// words in a row, by the place of the first and the index of the last.
#[derive(Clone, Copy)]
struct Row {
    first: usize,
    last: usize,
}

// Eight numbers, where the name and each of five slices ends, cells of four lists.
const NUMBERS: Row = Row { first: 8, last: 7 };

const ENDS: Row = Row { first: 72, last: 5 };

const LISTS: Row = Row {
    first: 120,
    last: 3,
};

// A word, highest byte first; 0 where the bytes end before it does.
#[tactic(auto, unfolding(crate::specs::Layout::word_at))]
fn word_at(bytes: &[u8], at: usize) -> u64
    ensures { result ≡ word_at bytes.now at }
{
    if at.saturating_add(8) <= bytes.len() {
        big_endian(bytes, at, 8)
    } else {
        0
    }
}

// A word of a row, the first by 0; 0 behind the last.
fn word_of(case: &[u8], row: Row, i: usize) -> u64
    requires { row.first + 8 * row.last < 2 ^ 64 }
    ensures { result ≡ word_of row.first row.last case.now i }
{
    if i <= row.last {
        word_at(case, row.first + 8 * i)
    } else {
        0
    }
}

pub fn call(case: &[u8]) -> u64
    ensures { result ≡ call_of case.now }
{
    word_at(case, CALL)
}

// Whether the Rust was asked and agreed; the oracle says so.
pub fn has_rust(case: &[u8]) -> bool
    ensures { result ≡ agreed_of case.now }
{
    word_at(case, RUST) == 1
}

// A number of the call, the first by 0.
#[tactic(auto, unfolding(crate::specs::Layout::number_of))]
pub fn number(case: &[u8], i: usize) -> u64
    ensures { result ≡ number_of case.now i }
{
    word_of(case, NUMBERS, i)
}

// How many cells a list has: the first is of bytes, the others of words.
#[tactic(auto, unfolding(crate::specs::Layout::cells_of))]
pub fn cells(case: &[u8], i: usize) -> usize
    ensures { result ≡ cells_of case.now i }
{
    word_of(case, LISTS, i) as usize
}

// Where a slice ends, the first by 1; the name stands before it, and ends where 0 says.
#[tactic(auto, unfolding(crate::specs::Layout::end_of))]
fn end(case: &[u8], i: usize) -> usize
    ensures { result ≡ end_of case.now i }
{
    word_of(case, ENDS, i) as usize
}

// Bytes of the case.
pub fn size(case: &[u8]) -> usize
    ensures { result ≡ end_of case.now 5 }
{
    end(case, SLICES)
}

// Whether no part ends before it starts.
#[tactic(auto, unfolding(crate::specs::Layout::is_whole, crate::specs::Layout::rises))]
pub fn is_whole(case: &[u8]) -> bool
    ensures { result ≡ is_whole case.now }
{
    (0..SLICES).all(|i| end(case, i) <= end(case, i + 1)) && end(case, 0) >= HEAD
}

// A part of the case, empty where the case does not have it.
#[tactic(auto, unfolding(crate::specs::Layout::part_of))]
fn part(case: &[u8], from: usize, to: usize) -> &[u8]
    ensures { result.now ≡ part_of case.now from to }
{
    case.get(from..to).unwrap_or(&[])
}

pub fn name(case: &[u8]) -> &[u8]
    ensures { result.now ≡ name_of case.now }
{
    part(case, HEAD, end(case, 0))
}

// A slice of the call, the first by 0.
#[tactic(auto, unfolding(crate::specs::Layout::slice_of))]
pub fn slice(case: &[u8], i: usize) -> &[u8]
    ensures { result.now ≡ slice_of case.now i }
{
    if i < SLICES {
        part(case, end(case, i), end(case, i + 1))
    } else {
        &[]
    }
}

// The words of a slice, eight bytes each, and how many; a rest is left out.
pub fn words(bytes: &[u8], list: &mut [u64]) -> usize
    ensures prefix_len { IsPrefixLen result list.new }
    ensures cells { FilledBy (word_in bytes.now) (length bytes.now / 8) list.new result }
{
    fill(list, bytes.len() / 8, |i| word_at(bytes, 8 * i))
}
