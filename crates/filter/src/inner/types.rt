// The types of a header, with none of them decoded: whether so many may stand there, and where reading them ends.
ghost use Rattle.std.specs.Prelude.{◌≡◌, ◌+◌, ◌-◌, ◌≤◌, ◌<◌, length, get_or};
ghost use Rattle.attempt.specs.Inner.{header_types, reach};
ghost use Rattle.filter.specs.Inner.{AllLow, SoonEnds, TooLong, MayHave, Holds};
ghost use Rattle.sheet.specs.Limits.{most_columns};

use crate::inner::high::{High, varint_end};
use record::inner::skip_varint;

// A type has nine bytes at the most, so a longer header has more types.
pub fn too_long(columns: usize, head: usize) -> bool
    requires { (columns ≤ most_columns) × (1 ≤ head) }
    ensures { TooLong columns head result }
{
    head - 1 > 9 * columns
}

fn all_low(bytes: &[u8], from: usize, to: usize) -> bool
    requires { (from ≤ to) × (to ≤ length bytes.now) }
    ensures { AllLow bytes.now from to result }
{
    bytes[from..to].iter().all(|byte| *byte < 128)
}

// Whether a header that is not too long may have just so many types: it has room for them, and where its first bytes are as many of one
// byte, none follows.
pub fn may_have(columns: usize, bytes: &[u8], o: usize, head: usize) -> bool
    requires { (2 ≤ head) × (o + head ≤ length bytes.now) }
    ensures { MayHave (header_types bytes.now o head (o + 1)) columns result }
{
    if head <= columns {
        return false;
    }
    let all = o + 1 + columns;
    !(all_low(bytes, o + 1, all) && all < o + head)
}

// The same of any header.
pub fn may_stand(columns: usize, bytes: &[u8], o: usize, head: usize) -> bool
    requires { (columns ≤ most_columns) × (2 ≤ head) × (o + head ≤ length bytes.now) }
    ensures { MayHave (header_types bytes.now o head (o + 1)) columns result }
{
    !too_long(columns, head) && may_have(columns, bytes, o, head)
}

// How far from o the types of a header there are read, if one of its last two bytes tells by being below 128.
pub fn soon_ends(bytes: &[u8], o: usize, head: usize) -> Option<usize>
    requires { (2 ≤ head) × (o + head ≤ length bytes.now) × (get_or bytes.now o 0 < 128) }
    ensures { SoonEnds bytes.now o head result }
{
    let stop = o + head;
    if bytes[stop - 1] < 128 {
        return Some(head);
    }
    if bytes[stop - 2] < 128 {
        return Some(skip_varint(bytes, stop - 1) - o);
    }
    None
}

// Where reading the types ends if the header's last byte is in a run: it comes to the run's start, and there a varint follows on another.
pub fn types_end(bytes: &[u8], o: usize, head: usize, run: High) -> usize
    requires header_there { (2 ≤ head) × (o + head ≤ length bytes.now) × (get_or bytes.now o 0 < 128) }
    requires holds { Holds bytes.now (o + head - 1) run }
    ensures { result ≡ reach bytes.now (header_types bytes.now o head (o + 1)) }
{
    let stop = o + head;
    let mut at = run.from;
    while at < stop {
        at = varint_end(bytes.len(), run.to, at);
    }
    at
}
