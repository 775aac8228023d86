// One entry of a lent list, and what judging a row or several comes to, for our own crates.
ghost use Rattle.std.specs.Prelude.{◌≡◌, ◌+◌, ◌*◌, ◌≤◌, ◌<◌, length, drop};
ghost use Rattle.groups.specs.Judging.{judged_entry, judged_row, judged_rows};
ghost use Rattle.groups.specs.Rows.{rows_in};
ghost use Rattle.sheet.specs.Limits.{most_columns, words_per_entry};
ghost use Rattle.sheet.specs.Sheet.{entry_in, entries_in};

use record::entry::{Entry, UNUSED};
use sheet::WORDS_PER_ENTRY;

// The entry whose words stand at a place.
pub fn entry_at(entries: &[u64], at: usize) -> Entry
    requires { at + words_per_entry ≤ length entries.now }
    ensures { result ≡ entry_in (drop at entries.now) }
{
    Entry {
        state: entries[at],
        kind: entries[at + 1],
        start: entries[at + 2],
        len: entries[at + 3],
    }
}

// How many are used with the entry at index i of a row, behind n used ones; none if it is bad.
fn judge_entry(e: Entry, bytes: &[u8], i: usize, n: usize) -> Option<usize>
    requires { i < most_columns }
    ensures { result ≡ judged_entry bytes.now e i n }
{
    if e.is_bad(bytes) {
        return None;
    }
    if e.state >= UNUSED {
        return Some(n);
    }
    // Else an unused entry stands before it.
    if n == i { Some(i + 1) } else { None }
}

// The columns of the row whose first entry stands at a place; none if an entry is bad.
pub fn judge_row(bytes: &[u8], entries: &[u64], from: usize, width: usize) -> Option<usize>
    requires width_le_most_columns { width ≤ most_columns }
    requires width_in_bounds { from + words_per_entry * width ≤ length entries.now }
    ensures { result ≡ judged_row bytes.now (entries_in width (drop from entries.now)) }
{
    let mut n = 0;
    for i in 0..width {
        n = judge_entry(entry_at(entries, from + WORDS_PER_ENTRY * i), bytes, i, n)?;
    }
    Some(n)
}

// The columns of the longest of so many rows.
pub fn judge_rows(bytes: &[u8], entries: &[u64], width: usize, rows: usize) -> Option<usize>
    requires width_le_most_columns { width ≤ most_columns }
    requires width_in_bounds { rows * (words_per_entry * width) ≤ length entries.now }
    ensures { result ≡ judged_rows bytes.now (rows_in rows width entries.now) }
{
    let mut most: usize = 0;
    for i in 0..rows {
        most = most.max(judge_row(bytes, entries, WORDS_PER_ENTRY * width * i, width)?);
    }
    Some(most)
}
