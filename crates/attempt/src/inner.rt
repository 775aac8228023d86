// One attempt at an offset, for our own crates: callers show by proof that the offset lies in the bytes, and that there is room.
mod header;

ghost use Rattle.std.specs.Prelude.{◌≡◌, ◌||◌, ◌+◌, ◌*◌, ◌≤◌, min, length};
ghost use Rattle.std.proofs.lemmas.List.Edits.{sets};
ghost use Rattle.attempt.specs.Attempt.{kinds, header_fits, attempt_at};
ghost use Rattle.attempt.specs.Hints.{is_integer, is_real, is_text, is_blob, suits as suits_hint};
ghost use Rattle.attempt.specs.Inner.{suits_at, too_long, body_size, sizes, columns_at, header_types, Headed, WholeIs, Walked};
ghost use Rattle.attempt.specs.Inner.{Judged, Tells};
ghost use Rattle.attempt.specs.Places.{attempt_places};
ghost use Rattle.record.specs.Places.{types_padded};
ghost use Rattle.sheet.specs.Limits.{words_per_entry, largest_region};
ghost use Rattle.sheet.specs.Sheet.{columns_words};

use crate::inner::header::{miscounted, types_end};
use record::record::body_length;
use record::varint::Cursor;
use sheet::columns::Column;
use sheet::hint::{ANY, BLOB, INTEGER, NULL, REAL, TEXT};
use sheet::inner::put_column;
use sheet::{MOST_HEADER, WORDS_PER_ENTRY};

// What the types of a header come to: how many there are, how many suit, the length of all bodies, where reading stopped, and whether a
// number of the header is padded.
#[derive(Clone, Copy, Debug)]
pub struct Walk {
    pub count: usize,
    pub matched: u16,
    pub total: usize,
    pub end: usize,
    pub padded: bool,
}

// A row that an attempt found: its header's length, where its types start, the bytes that it takes, how many of its types suit, the
// header bytes that were read, and whether a number of its header is padded.
#[derive(Clone, Copy, Debug)]
pub struct Find {
    pub head: usize,
    pub from: usize,
    pub consumed: usize,
    pub matched: u16,
    pub read: usize,
    pub padded: bool,
}

// No row, and the header bytes that were read to see it.
#[derive(Clone, Copy, Debug)]
pub struct Miss {
    pub read: usize,
}

// A row takes at most so many bytes.
pub const MOST_BYTES: usize = 65_536;

// No total of bodies is told from one above this.
const TOO_LONG: usize = MOST_BYTES + 1;

// A reserved type's body is as long.
const NEVER_FITS: usize = TOO_LONG;

#[tactic(auto, unfolding(crate::specs::Hints::is_integer))]
fn is_integer(kind: u64) -> bool
    ensures { result ≡ is_integer kind }
{
    matches!(kind, 0..=6 | 8 | 9)
}

#[tactic(auto, unfolding(crate::specs::Hints::is_real))]
fn is_real(kind: u64) -> bool
    ensures { result ≡ is_real kind }
{
    matches!(kind, 0 | 7)
}

#[tactic(auto, unfolding(crate::specs::Hints::is_text))]
fn is_text(kind: u64) -> bool
    ensures { result ≡ is_text kind }
{
    kind == 0 || (13 <= kind && kind % 2 == 1)
}

#[tactic(auto, unfolding(crate::specs::Hints::is_blob))]
fn is_blob(kind: u64) -> bool
    ensures { result ≡ is_blob kind }
{
    kind == 0 || (12 <= kind && kind % 2 == 0)
}

#[tactic(auto, unfolding(crate::specs::Hints::suits))]
pub fn suits(hint: u8, kind: u64) -> bool
    ensures { result ≡ suits_hint hint kind }
{
    match hint {
        INTEGER => is_integer(kind),
        REAL => is_real(kind),
        TEXT => is_text(kind),
        BLOB => is_blob(kind),
        NULL => kind == 0,
        ANY => true,
        _ => false,
    }
}

// 1 where the type suits the hint at k; types behind the last hint suit none.
pub fn suits_at(hints: &[u8], k: usize, kind: u64) -> u16
    ensures value { result ≡ suits_at hints.now k kind }
    ensures small { result ≤ 1 }
{
    u16::from(k < hints.len() && suits(hints[k], kind))
}

#[tactic(auto, unfolding(crate::specs::Inner::body_size))]
fn body_size(kind: u64) -> usize
    ensures { result ≡ body_size kind }
{
    body_length(kind).unwrap_or(NEVER_FITS)
}

// The total with one more body, up to what is too long in any case.
pub fn add_body(total: usize, kind: u64) -> usize
    requires { total ≤ too_long }
    ensures { result ≡ min too_long (total + body_size kind) }
{
    total.saturating_add(body_size(kind)).min(TOO_LONG)
}

// Reads the types that stand behind `from` in the header of `head` bytes at o, whose own number is padded or not; none if one of them runs
// off the slice.
fn walk_types(
    bytes: &[u8],
    hints: &[u8],
    o: usize,
    head: usize,
    from: usize,
    own: bool,
) -> Option<Walk>
    requires { Headed bytes.now o head from }
    ensures { Walked bytes.now hints.now (header_types bytes.now o head from)
        (own || types_padded head bytes.now from (o + head)) result }
{
    let stop = o + head;
    let mut at = from;
    let mut padded = own;
    let mut count: usize = 0;
    let mut matched: u16 = 0;
    let mut total: usize = 0;
    while at < stop {
        let (kind, next) = Cursor::new(at).serial_type(bytes)?;
        matched += suits_at(hints, count, kind);
        total = add_body(total, kind);
        count += 1;
        at = next.at;
        // A branch, since a type of one byte is known not to be padded and so costs nothing.
        if next.padded {
            padded = true;
        }
    }
    Some(Walk {
        count,
        matched,
        total,
        end: at,
        padded,
    })
}

// Whether as many types as hints make a row: those of the header of `head` bytes at o that stand behind `from`, and came to so much.
pub fn judge(
    bytes: &[u8],
    hints: &[u8],
    o: usize,
    head: usize,
    from: usize,
    walk: Walk,
) -> Result<Find, Miss>
    requires headed { Headed bytes.now o head from }
    requires whole_is { WholeIs bytes.now hints.now (header_types bytes.now o head from) walk.padded
        (length hints.now) walk.matched walk.total walk.end walk.padded }
    ensures { Judged bytes.now hints.now o head from walk.padded result }
{
    let read = walk.end - o;
    let consumed = head + walk.total;
    if walk.matched == 0 || consumed > bytes.len() - o || consumed > MOST_BYTES {
        return Err(Miss { read });
    }
    Ok(Find {
        head,
        from,
        consumed,
        matched: walk.matched,
        read,
        padded: walk.padded,
    })
}

// Whether the types that stand behind `from` in the header of `head` bytes at o make a row; its own number, which is padded or not, need
// not stand there.
pub fn given_header(
    bytes: &[u8],
    hints: &[u8],
    o: usize,
    head: usize,
    from: usize,
    own: bool,
) -> Result<Find, Miss>
    requires { Headed bytes.now o head from }
    ensures { Judged bytes.now hints.now o head from
        (own || types_padded head bytes.now from (o + head)) result }
{
    // Most headers that fail have too few types or too many, which is seen before one is decoded.
    if miscounted(hints.len(), bytes, o, head, from) {
        let read = types_end(bytes, o, head, from) - o;
        return Err(Miss { read });
    }
    let Some(walk) = walk_types(bytes, hints, o, head, from, own) else {
        return Err(Miss {
            read: bytes.len() - o,
        });
    };
    if walk.count != hints.len() {
        return Err(Miss { read: walk.end - o });
    }
    judge(bytes, hints, o, head, from, walk)
}

#[tactic(auto, unfolding(crate::specs::Attempt::header_fits))]
fn header_fits(len: usize, o: usize, h: u64) -> bool
    requires { o ≤ len }
    ensures { result ≡ header_fits len o h }
{
    2 <= h && h <= MOST_HEADER && h <= (len - o) as u64
}

pub fn attempt(bytes: &[u8], hints: &[u8], o: usize) -> Result<Find, Miss>
    requires { (o ≤ length bytes.now) × (length bytes.now ≤ largest_region) }
    ensures { Tells bytes.now hints.now o (attempt_at bytes.now hints.now o)
        (attempt_places bytes.now o) result }
{
    let Some((h, next)) = Cursor::new(o).header_length(bytes) else {
        return Err(Miss {
            read: bytes.len() - o,
        });
    };
    let from = next.at;
    if !header_fits(bytes.len(), o, h) {
        return Err(Miss { read: from - o });
    }
    given_header(bytes, hints, o, h as usize, from, next.padded)
}

// Writes the columns whose types stand behind `from` in the header of `head` bytes at o; the bodies start at its end. The bytes lie `by`
// bytes into the slice that the entries' starts count in.
pub fn put_columns(
    bytes: &[u8],
    o: usize,
    head: usize,
    from: usize,
    by: usize,
    cols: &mut [u64],
    k: usize,
)
    requires headed { Headed bytes.now o head from }
    requires bodies_in_bounds { o + head + sizes (kinds (header_types bytes.now o head from)) ≤ length bytes.now }
    requires bytes_bound { by + length bytes.now ≤ largest_region }
    requires room_for_entries { k + words_per_entry * length (kinds (header_types bytes.now o head from)) ≤ length cols.old }
    ensures { cols.new ≡ sets cols.old k
        (columns_words (columns_at (by + (o + head)) (kinds (header_types bytes.now o head from)))) }
{
    let stop = o + head;
    let mut at = from;
    let mut start = by + stop;
    let mut to = k;
    while at < stop {
        let Some((kind, next)) = Cursor::new(at).serial_type(bytes) else {
            return;
        };
        let len = body_size(kind);
        put_column(
            cols,
            to,
            Column::Body {
                kind,
                start: start as u64,
                len: len as u64,
            },
        );
        start += len;
        to += WORDS_PER_ENTRY;
        at = next.at;
    }
}
