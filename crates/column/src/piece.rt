// The hint that a piece between commas gives, in one of two readings.
ghost use Rattle.std.specs.Prelude.{◌≡◌};
ghost use Rattle.column.specs.Column.{is_row_id, begins_as_constraint, name_of, is_constraint, is_dropped};
ghost use Rattle.column.specs.Column.{is_keyed, key_hint, column_hint, piece_hints};
ghost use Rattle.column.specs.Inner.{given_hints};
ghost use Rattle.words.specs.Words.{trim};

use crate::declared::sql_type_to_hint;
use sheet::hint::{INTEGER, NULL};
use words::inner::keywords::{begins, holds_word, is_word};
use words::runs::{Run, before_first, leading};
use words::words::{second_word, trimmed, word_behind};

// What a constraint of a table begins with.
const CONSTRAINTS: [&[u8]; 5] = [b"PRIMARY", b"UNIQUE", b"CHECK", b"FOREIGN", b"CONSTRAINT"];

#[derive(Clone, Copy, Debug, PartialEq, Eq)]
pub enum Reading {
    // As the Rust reads it, for comparing with the Rust.
    AsRust,
    // A key has its place, and only constraints are left out.
    ByFormat,
}

#[tactic(auto, unfolding(crate::specs::Column::is_row_id))]
fn is_row_id(piece: &[u8]) -> bool
    ensures { result ≡ is_row_id piece.now }
{
    holds_word(piece, b"KEY") && holds_word(piece, b"PRIMARY") && holds_word(piece, b"INTEGER")
}

fn begins_as_constraint(piece: &[u8]) -> bool
    ensures { result ≡ begins_as_constraint piece.now }
{
    CONSTRAINTS.iter().any(|word| begins(piece, word))
}

// A round bracket ends it as a blank does.
#[tactic(auto, using(words::proofs::Laws::take_run), unfolding(crate::specs::Column::name_of))]
fn name(piece: &[u8]) -> &[u8]
    ensures { result.now ≡ name_of piece.now }
{
    let word = &piece[..leading(piece, Run::Word)];
    before_first(before_first(word, b'('), b')')
}

fn is_constraint(name: &[u8]) -> bool
    ensures { result ≡ is_constraint name.now }
{
    CONSTRAINTS.iter().any(|word| is_word(name, word))
}

#[tactic(auto, using(crate::proofs::Laws::no_constraint), unfolding(crate::specs::Column::is_dropped))]
fn is_dropped(reading: Reading, piece: &[u8]) -> bool
    ensures { result ≡ is_dropped reading piece.now }
{
    // Most pieces are told by their first letter.
    let begins = begins_as_constraint(piece);
    match reading {
        Reading::AsRust => begins || is_row_id(piece),
        Reading::ByFormat => begins && is_constraint(name(piece)),
    }
}

#[tactic(auto, unfolding(crate::specs::Column::is_keyed))]
fn is_keyed(column: &[u8]) -> bool
    ensures { result ≡ is_keyed column.now }
{
    is_word(word_behind(column, 2), b"PRIMARY") && is_word(word_behind(column, 3), b"KEY")
}

fn key_hint(column: &[u8]) -> u8
    ensures { result ≡ key_hint column.now }
{
    if is_word(word_behind(column, 4), b"DESC") {
        INTEGER
    } else {
        NULL
    }
}

#[tactic(auto, unfolding(crate::specs::Column::column_hint))]
fn column_hint(reading: Reading, column: &[u8]) -> u8
    ensures { result ≡ column_hint reading column.now }
{
    let kind = second_word(column);
    match reading {
        Reading::ByFormat if is_word(kind, b"INTEGER") && is_keyed(column) => key_hint(column),
        _ => sql_type_to_hint(kind),
    }
}

#[tactic(auto, unfolding(crate::specs::Column::piece_hints))]
pub fn piece_hint(reading: Reading, piece: &[u8]) -> Option<u8>
    ensures { given_hints result ≡ piece_hints reading (trim piece.now) }
{
    let column = trimmed(piece);
    if column.is_empty() || is_dropped(reading, column) {
        None
    } else {
        Some(column_hint(reading, column))
    }
}
