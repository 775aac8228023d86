// The lines of rows, as text: callers show by proof that there is room.
ghost use Rattle.std.specs.Prelude.{◌+◌, ◌*◌, ◌≤◌, length};
ghost use Rattle.digits.specs.Inner.{Room, Puts, most_field};
ghost use Rattle.listing.specs.Inner.{most_numbers, most_line};
ghost use Rattle.listing.specs.Text.{type_text, types_text, numbers_text, line_text, rows_text};
ghost use Rattle.sheet.specs.Limits.{words_per_row, words_per_entry};

use digits::inner::{HEX_DIGITS, MOST_DIGITS, Text};
use sheet::{MOST_COLUMNS, WORDS_PER_ENTRY, WORDS_PER_ROW};

// Offset, length and each type, with the byte that ends it; the confidence with its blank.
pub const LONGEST_LINE: usize = (2 + MOST_COLUMNS) * (MOST_DIGITS + 1) + HEX_DIGITS + 2;

// The type of the column k: a comma parts it from the one before.
fn put_type(text: &mut Text, k: usize, kind: u64)
    requires { Room text.old most_field }
    ensures put { Puts text.old (type_text k kind) text.new }
    ensures near { text.new.len ≤ text.old.len + most_field }
{
    if k == 0 {
        text.put_decimal(kind);
    } else {
        text.put_number_after(b",", kind);
    }
}

// The types of the `width` entries whose words start at `group`.
fn put_types(text: &mut Text, cols: &[u64], group: usize, width: usize)
    requires room_for_text { Room text.old (most_field * width) }
    requires entries_there { group + words_per_entry * width ≤ length cols.now }
    ensures put { Puts text.old (types_text cols.now group width) text.new }
    ensures near { text.new.len ≤ text.old.len + most_field * width }
{
    for k in 0..width {
        put_type(text, k, cols[group + WORDS_PER_ENTRY * k + 1]);
    }
}

// Offset, bytes consumed and confidence of the row n.
fn put_numbers(text: &mut Text, rows: &[u64], n: usize)
    requires most_numbers_in_bounds { Room text.old most_numbers }
    requires rows_there { n * words_per_row + words_per_row ≤ length rows.now }
    ensures put { Puts text.old (numbers_text rows.now n) text.new }
    ensures near { text.new.len ≤ text.old.len + most_numbers }
{
    let row = n * WORDS_PER_ROW;
    text.put_field(rows[row]);
    text.put_field(rows[row + 1]);
    text.put_hex(rows[row + 6]);
    text.put_bytes(b" ");
}

// The line of the row n of both lists.
fn put_line(text: &mut Text, rows: &[u64], cols: &[u64], width: usize, n: usize)
    requires room_for_text { Room text.old (most_line width) }
    requires rows_there { n * words_per_row + words_per_row ≤ length rows.now }
    requires entries_there { n * (words_per_entry * width) + words_per_entry * width ≤ length cols.now }
    ensures put { Puts text.old (line_text rows.now cols.now width n) text.new }
    ensures near { text.new.len ≤ text.old.len + most_line width }
{
    put_numbers(text, rows, n);
    put_types(text, cols, n * (WORDS_PER_ENTRY * width), width);
    text.put_bytes(b"\n");
}

// The lines of the first `count` rows of both lists.
pub fn put_rows(text: &mut Text, rows: &[u64], cols: &[u64], width: usize, count: usize)
    requires room_for_text { Room text.old (count * most_line width) }
    requires rows_there { count * words_per_row ≤ length rows.now }
    requires entries_there { count * (words_per_entry * width) ≤ length cols.now }
    ensures put { Puts text.old (rows_text rows.now cols.now width count) text.new }
    ensures near { text.new.len ≤ text.old.len + count * most_line width }
{
    for n in 0..count {
        put_line(text, rows, cols, width, n);
    }
}
