// Starts of headers that are rebuilt in a payload: how many there are, and which can be passed over. In the one-byte mode as many types
// as the header has bytes take one byte each, but for the last, which may run past its end; so a byte from 128 up before the header's
// last byte shows that there is no row.
ghost use Rattle.std.specs.Prelude.{◌≡◌, ◌+◌, ◌*◌, ◌≤◌, length};
ghost use Rattle.rebuild.specs.Header.{one_byte_types, most_by};
ghost use Rattle.sheet.specs.Limits.{largest_region, words_per_row};
ghost use Rattle.starts.specs.Starts.{rebuilt_starts};
ghost use Rattle.starts.specs.Inner.{next_cell, BehindHigh, Apart, Passes, StartIs};

use rebuild::rebuilding::Rebuilding;
use sheet::WORDS_PER_ROW;

// How many starts are tried.
pub fn starts_of(len: usize, columns: usize) -> usize
    requires { (len ≤ largest_region) × (1 ≤ columns) }
    ensures { result ≡ rebuilt_starts len columns }
{
    (len + 1).saturating_sub(columns - 1)
}

// Where the record of the next cell starts: the offset of the row k, if it is one of the first `cells`.
#[tactic(auto, unfolding(crate::specs::Inner::next_cell))]
pub fn next_cell(rows: &[u64], k: usize, cells: usize) -> Option<u64>
    requires { cells * words_per_row ≤ length rows.now }
    ensures { result ≡ next_cell rows.now k cells }
{
    if k >= cells {
        return None;
    }
    // A row begins with its offset.
    Some(rows[k * WORDS_PER_ROW])
}

// Behind the last byte from 128 up, of those from v on and before `last`; v if there is none.
fn behind_high(payload: &[u8], v: usize, last: usize) -> usize
    requires { (v ≤ last) × (last ≤ length payload.now) }
    ensures { BehindHigh payload.now v last result }
{
    for at in (v..last).rev() {
        if payload[at] > 127 {
            return at + 1;
        }
    }
    v
}

// The first start from v on and before `end` at which a row may be; `end` if there is none. One byte dismisses all starts up to its own.
fn pass_high(payload: &[u8], hints: &[u8], v: usize, end: usize) -> usize
    requires payload_len_bound { (length payload.now ≤ largest_region) × (1 ≤ length hints.now) × (length hints.now ≤ one_byte_types) }
    requires v_le_end { (v ≤ end) × (end ≤ rebuilt_starts (length payload.now) (length hints.now)) }
    ensures { Passes payload.now hints.now v end result }
{
    let others = hints.len() - 1;
    let mut at = v;
    while at < end {
        let next = behind_high(payload, at, at + others);
        if next == at {
            return at;
        }
        at = next;
    }
    end
}

// How many starts there are before that of the next cell's record; the payload's offset is `offset`.
fn before_cell(next: Option<u64>, offset: u64, starts: usize) -> usize
    ensures { Apart next offset starts result }
{
    match next {
        Some(next) if next >= offset => (next - offset).min(starts as u64) as usize,
        _ => starts,
    }
}

// The first start from v on at which the next cell's record starts, or a row may be; the payload's offset is `offset`.
pub fn next_start(
    how: Rebuilding,
    payload: &[u8],
    hints: &[u8],
    next: Option<u64>,
    offset: u64,
    v: usize,
    starts: usize,
) -> usize
    requires payload_len_bound { (length payload.now ≤ largest_region) × (1 ≤ length hints.now) × (length hints.now ≤ most_by how) }
    requires v_le_starts { (v ≤ starts) × (starts ≤ rebuilt_starts (length payload.now) (length hints.now)) }
    ensures { StartIs how payload.now hints.now next offset v starts result }
{
    let Rebuilding::OneByte = how else {
        return v;
    };
    let clear = before_cell(next, offset, starts);
    if clear <= v {
        return v;
    }
    pass_high(payload, hints, v, clear)
}
