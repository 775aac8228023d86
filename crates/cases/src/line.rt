// The line of a case: whether the Rust agreed, the name or the number, what the call returned, and the cells that it changed.
ghost use Rattle.streams.specs.Moving.{StillWhole};

use crate::case::{CELLS, has_rust, name};
use crate::lists::{Cells, changed, fold, is_fresh, starts, widened};
use streams::Output;

// So many changed cells of a list are said one by one; of more their number, and what all cells of the list fold to.
const FEW: u64 = 256;

// Words that are no counts or places, as a rule, are read by their bits.
const DECIMAL: u64 = 0x1000_0000;

const SHORT: u64 = 0x1_0000_0000;

// The line's beginning; a case is numbered by its place, from 1 on.
pub fn begin(said: Output, n: u64, case: &[u8]) -> Output
    ensures { StillWhole said result }
{
    let said = said_by(said, has_rust(case));
    let name = name(case);
    let said = if name.is_empty() {
        said.say(b"case ").say_decimal(n)
    } else {
        said.say(name)
    };
    said.say(b": ")
}

fn said_by(said: Output, rust: bool) -> Output
    ensures { StillWhole said result }
{
    said.say(if rust { b"Rust  " } else { b"rules " })
}

// A heading stands by itself.
pub fn heading(said: Output, case: &[u8]) -> Output
    ensures { StillWhole said result }
{
    said.say(b"\n").say(name(case)).say(b"\n")
}

pub fn answered(said: Output, number: u64, out: &[u64]) -> Output
    ensures { StillWhole said result }
{
    let said = said.say(b"answers ").say_decimal(number).say(b", out");
    say_cells(said, Cells::Out, out)
}

fn say_word(said: Output, n: u64) -> Output
    ensures { StillWhole said result }
{
    if n < DECIMAL {
        said.say_decimal(n)
    } else {
        said.say(b"0x").say_hex(n, if n < SHORT { 8 } else { 16 })
    }
}

// Where the changed cells go on elsewhere, and where a row or an entry starts.
fn say_place(said: Output, of: Cells, i: usize, joined: bool) -> Output
    ensures { StillWhole said result }
{
    if i == 0 {
        said
    } else if !joined {
        said.say(b" @").say_decimal(i as u64)
    } else if starts(of, i) {
        said.say(b" |")
    } else {
        said
    }
}

fn say_cell(said: Output, of: Cells, i: usize, cell: u64, joined: bool) -> Output
    ensures { StillWhole said result }
{
    if is_fresh(of, i, cell) {
        said
    } else {
        say_word(say_place(said, of, i, joined).say(b" "), cell)
    }
}

fn say_cells(said: Output, of: Cells, list: &[u64]) -> Output
    ensures { StillWhole said result }
{
    let mut said = said;
    let mut joined = true;
    for (i, cell) in list.iter().enumerate() {
        said = say_cell(said, of, i, *cell, joined);
        joined = !is_fresh(of, i, *cell);
    }
    said
}

pub fn say_list(said: Output, label: &[u8], of: Cells, list: &[u64]) -> Output
    ensures { StillWhole said result }
{
    let said = said.say(b"; ").say(label);
    let n = changed(of, list);
    if n == 0 {
        said.say(b" -")
    } else if n > FEW {
        let said = said.say(b" ").say_decimal(n);
        said.say(b" changed, fold 0x").say_hex(fold(list), 16)
    } else {
        say_cells(said, of, list)
    }
}

pub fn say_bytes(said: Output, label: &[u8], list: &[u8]) -> Output
    ensures { StillWhole said result }
{
    let mut words = [0; CELLS];
    let n = widened(list, &mut words);
    say_list(said, label, Cells::Bytes, &words[..n])
}

// Rows, and their column entries.
pub fn say_rows(said: Output, rows: &[u64], cols: &[u64]) -> Output
    ensures { StillWhole said result }
{
    let said = say_list(said, b"rows", Cells::Rows, rows);
    say_list(said, b"entries", Cells::Entries, cols)
}
