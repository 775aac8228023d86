// Hints learned from rows that were read: for each column the commonest type of its values.
ghost use Rattle.std.specs.Prelude.{◌≡◌, ◌==◌, count_by, [], ◌+◌, ◌≤◌, ◌<◌, pos, length, get_or, set, take};
ghost use Rattle.groups.specs.Rows.{rows_in};
ghost use Rattle.learn.specs.Inner.{counter_count, Lent, OwnType, PutType, Counts, Tallied};
ghost use Rattle.learn.specs.Learn.{given, column_types, hint_of, hints_below};
ghost use Rattle.learn.specs.Learn.{learn_filling};
ghost use Rattle.learn.specs.Types.{width_type, integer_type, value_type, count_in, better, commonest_of};
ghost use Rattle.record.specs.Value.{length_of};
ghost use Rattle.sheet.specs.Filled.{filled_by, laid, list_outcome, FillsList};
ghost use Rattle.sheet.specs.Limits.{largest_region, most_rows};
ghost use Rattle.sheet.specs.Sheet.{overlay};

use groups::inner::{entry_at, judge_rows};
use record::entry::{BODY, Entry, UNUSED};
use record::record::Value;
use sheet::filled::Filled;
use sheet::hint::hint_count_fits;
use sheet::refusal::Refusal;
use sheet::{LARGEST_REGION, MOST_ROWS, WORDS_PER_ENTRY};

// Types below it have a counter in a table. Larger ones, texts and blobs of 4 KiB, are rare.
const COUNTERS: usize = 8_192;

// A type, and how often it occurs.
#[derive(Clone, Copy, Debug)]
struct Leader {
    kind: u64,
    count: usize,
}

// The type of n, and of -1 - n, which takes as many bits. Types are numbers, as the file format has them and C is given them.
#[tactic(auto, unfolding(crate::specs::Types::width_type))]
fn width_type(n: u64) -> u64
    ensures { result ≡ width_type (pos n) }
{
    match n {
        0..0x80 => 1,
        0x80..0x8000 => 2,
        0x8000..0x80_0000 => 3,
        0x80_0000..0x8000_0000 => 4,
        _ => 6,
    }
}

fn integer_type(v: i64) -> u64
    ensures { result ≡ integer_type v }
{
    if v < 0 {
        return width_type((-1 - v) as u64);
    }
    let n = v as u64;
    if n < 2 { 8 } else { width_type(n) }
}

fn value_type(value: Value) -> u64
    requires { length_of value ≤ largest_region }
    ensures { result ≡ value_type value }
{
    match value {
        Value::Null => 0,
        Value::Int(v) => integer_type(v),
        Value::Real(_) => 7,
        Value::Text { len, .. } => 13 + 2 * len as u64,
        Value::Blob { len, .. } => 12 + 2 * len as u64,
    }
}

// Whether it surely is a text or a blob: those count as the type that they have, and need not be decoded.
fn is_own_type(e: Entry, bytes: &[u8]) -> bool
    ensures { OwnType bytes.now e result }
{
    e.state == BODY && e.kind >= 12 && !e.is_bad(bytes)
}

// Writes the entry's type behind n others, if it is used; the answer is how many there are then.
fn put_type(bytes: &[u8], e: Entry, kinds: &mut [u64], n: usize) -> usize
    requires bytes_len_bound { length bytes.now ≤ largest_region }
    requires n_in_bounds { n < length kinds.old }
    ensures { PutType (given bytes.now e) n kinds.old result kinds.new }
{
    if e.state >= UNUSED {
        return n;
    }
    if is_own_type(e, bytes) {
        kinds[n] = e.kind;
        return n + 1;
    }
    let Some(value) = e.read(bytes) else {
        return n;
    };
    kinds[n] = value_type(value);
    n + 1
}

// Writes the types of a column.
fn gather(
    bytes: &[u8],
    entries: &[u64],
    width: usize,
    rows: usize,
    column: usize,
    kinds: &mut [u64],
) -> usize
    requires lent { Lent bytes.now entries.now width rows }
    requires column_lt_width { column < width }
    requires kinds_len { length kinds.old ≡ most_rows }
    ensures kinds_after { take result kinds.new ≡ column_types bytes.now column (rows_in rows width entries.now) }
    ensures small { result ≤ most_rows }
{
    let mut n = 0;
    for i in 0..rows {
        let at = WORDS_PER_ENTRY * width * i + WORDS_PER_ENTRY * column;
        n = put_type(bytes, entry_at(entries, at), kinds, n);
    }
    n
}

// How often a type occurs.
fn count_of(kinds: &[u64], kind: u64) -> usize
    ensures { result ≡ count_by (λ other. kind == other) kinds.now }
{
    let mut n = 0;
    for other in kinds {
        // No way out and no branch, so that several are compared at once.
        n += usize::from(kind == *other);
    }
    n
}

// One more of a type, if it has a counter.
fn count_up(table: &mut [u16], kind: u64)
    requires { get_or table.old kind 0 ≤ most_rows }
    ensures { table.new ≡ set table.old kind (get_or table.old kind 0 + 1) }
{
    if kind < table.len() as u64 {
        table[kind as usize] += 1;
    }
}

// Counts every type that the table has a counter for.
fn tally(kinds: &[u64], table: &mut [u16])
    requires kinds_len_bound { length kinds.now ≤ most_rows }
    requires tallied { Tallied table.old [] }
    ensures { Tallied table.new kinds.now }
{
    for kind in kinds {
        count_up(table, *kind);
    }
}

// The counter of a type, if it has one, to 0.
fn set_back(table: &mut [u16], kind: u64)
    ensures { table.new ≡ set table.old kind 0 }
{
    if kind < table.len() as u64 {
        table[kind as usize] = 0;
    }
}

// Sets back the counters of the types that were counted: the others are 0 already. Not one loop with `tally` over a step that is passed:
// each step's clause speaks of what the table was, and what holds before the loop of one holds behind that of the other.
fn clear(kinds: &[u64], table: &mut [u16])
    requires { Tallied table.old kinds.now }
    ensures { Tallied table.new [] }
{
    for kind in kinds {
        set_back(table, *kind);
    }
}

// How often a type occurs, by its counter if it has one.
fn look_up(kinds: &[u64], table: &[u16], kind: u64) -> usize
    requires { Tallied table.now kinds.now }
    ensures { result ≡ count_in kind kinds.now }
{
    if kind < table.len() as u64 {
        table[kind as usize] as usize
    } else {
        count_of(kinds, kind)
    }
}

// The leader, or the type that comes before it.
fn challenge(kinds: &[u64], table: &[u16], leader: Leader, kind: u64) -> Leader
    requires tallied { Tallied table.now kinds.now }
    requires leader_counted { Counts kinds.now leader }
    ensures kind_value { result.kind ≡ better kinds.now leader.kind kind }
    ensures counts { Counts kinds.now result }
{
    // It is counted already.
    if kind == leader.kind {
        return leader;
    }
    let count = look_up(kinds, table, kind);
    if count < leader.count {
        return leader;
    }
    if count > leader.count {
        return Leader { kind, count };
    }
    if kind > leader.kind {
        return leader;
    }
    Leader { kind, count }
}

// The commonest by the table.
fn seek(kinds: &[u64], table: &[u16]) -> u64
    requires { Tallied table.now kinds.now }
    ensures { result ≡ commonest_of kinds.now }
{
    let mut leader = Leader {
        kind: 0,
        count: look_up(kinds, table, 0),
    };
    for kind in kinds {
        leader = challenge(kinds, table, leader, *kind);
    }
    leader.kind
}

// The table is clear before and after, so that it serves every column.
fn commonest(kinds: &[u64], table: &mut [u16]) -> u64
    requires kinds_len_bound { length kinds.now ≤ most_rows }
    requires tallied { Tallied table.old [] }
    ensures value { result ≡ commonest_of kinds.now }
    ensures clear { Tallied table.new [] }
{
    tally(kinds, table);
    let kind = seek(kinds, table);
    clear(kinds, table);
    kind
}

fn hint_of(
    bytes: &[u8],
    entries: &[u64],
    width: usize,
    rows: usize,
    column: usize,
    kinds: &mut [u64],
    table: &mut [u16],
) -> u64
    requires lent { Lent bytes.now entries.now width rows }
    requires column_lt_width { column < width }
    requires kinds_len { length kinds.old ≡ most_rows }
    requires tallied { Tallied table.old [] }
    ensures value { result ≡ hint_of bytes.now column (rows_in rows width entries.now) }
    ensures clear { Tallied table.new [] }
{
    let n = gather(bytes, entries, width, rows, column, kinds);
    commonest(&kinds[..n], table)
}

// Writes the hints of the first columns.
fn put_hints(
    bytes: &[u8],
    entries: &[u64],
    width: usize,
    rows: usize,
    columns: usize,
    types: &mut [u64],
    kinds: &mut [u64],
    table: &mut [u16],
)
    requires lent { Lent bytes.now entries.now width rows }
    requires columns_le_width { columns ≤ width }
    requires columns_in_bounds { columns ≤ length types.old }
    requires kinds_len { length kinds.old ≡ most_rows }
    requires tallied { Tallied table.old [] }
    ensures { types.new ≡ overlay (hints_below bytes.now columns (rows_in rows width entries.now))
        types.old }
{
    for c in 0..columns {
        types[c] = hint_of(bytes, entries, width, rows, c, kinds, table);
    }
}

// A table of counters that are all 0.
fn counters() -> [u16; COUNTERS]
    ensures counters_length { counter_count ≡ length result }
    ensures clear { Tallied result [] }
{
    [0; COUNTERS]
}

// Writes the hints of as many columns as there is room for.
fn learn_columns(
    bytes: &[u8],
    entries: &[u64],
    width: usize,
    rows: usize,
    columns: usize,
    types: &mut [u64],
) -> Filled
    requires lent { Lent bytes.now entries.now width rows }
    requires columns_le_width { columns ≤ width }
    ensures value { result ≡ filled_by columns (length types.old) }
    ensures list { types.new ≡ laid (hints_below bytes.now columns (rows_in rows width entries.now))
        types.old }
{
    let room = types.len();
    // No heap: the types of a column fill the first cells of one list, and one table counts each column in turn.
    let mut kinds = [0; MOST_ROWS];
    let mut table = counters();
    put_hints(
        bytes,
        entries,
        width,
        rows,
        columns.min(room),
        types,
        &mut kinds,
        &mut table,
    );
    if room < columns {
        Filled::Full(room)
    } else {
        Filled::Done(columns)
    }
}

pub fn learn_signatures(
    bytes: &[u8],
    width: usize,
    entries: &[u64],
    types: &mut [u64],
) -> Result<Filled, Refusal>
    ensures { FillsList (learn_filling bytes.now width entries.now types.old)
        (list_outcome result types.new) }
{
    if !hint_count_fits(width) {
        return Err(Refusal::ColumnCount);
    }
    let rows = entries.len() / (WORDS_PER_ENTRY * width);
    let columns = judge_rows(bytes, entries, width, rows).ok_or(Refusal::Malformed)?;
    if bytes.len() > LARGEST_REGION || rows > MOST_ROWS {
        return Err(Refusal::TooLarge);
    }
    Ok(learn_columns(bytes, entries, width, rows, columns, types))
}
