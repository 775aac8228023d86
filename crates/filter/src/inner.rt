// The next row of a region, for our own crates. An attempt decides only where nothing is soon seen.
mod high;
mod types;

ghost use Rattle.std.specs.Prelude.{◌≡◌, ◌+◌, ◌-◌, ◌≤◌, ◌<◌, length, get_or};
ghost use Rattle.filter.specs.Inner.{LowTo, IsHigh, Holds, Dismissed, PassedOverIs, PassedWithRunIs, StepSays, NextSays};
ghost use Rattle.sheet.specs.Limits.{most_columns, largest_region};

pub use crate::inner::high::High;
use crate::inner::high::{run_around, varint_end};
use crate::inner::types::{may_have, may_stand, soon_ends, too_long, types_end};
use attempt::inner::{Find, attempt};
use record::inner::wide;

// Up to where offsets are passed over, and the header bytes that attempts there read.
#[derive(Clone, Copy)]
struct PassedOver {
    to: usize,
    read: usize,
}

// A row, and the run of high bytes that was met last.
#[derive(Clone, Copy, Debug)]
pub struct Row {
    pub at: usize,
    pub find: Find,
    pub run: High,
}

// The next row, if there is one, and the header bytes that attempts before it read.
#[derive(Clone, Copy, Debug)]
pub struct Next {
    pub row: Option<Row>,
    pub read: usize,
}

// The header bytes that an attempt at o reads, where its header of one byte's length shows soon that it fails.
fn look_header(bytes: &[u8], hints: &[u8], o: usize, head: usize) -> Option<usize>
    requires o_in_bounds { (o < length bytes.now) × (head ≡ get_or bytes.now o 0) × (2 ≤ head) × (head < 128) }
    requires sizes_fit { (length bytes.now ≤ largest_region) × (length hints.now ≤ most_columns) }
    ensures { Dismissed bytes.now hints.now o result }
{
    let columns = hints.len();
    if o + head > bytes.len() {
        return Some(1);
    }
    // A way out of its own, since text takes it.
    if too_long(columns, head) {
        return soon_ends(bytes, o, head);
    }
    if may_have(columns, bytes, o, head) {
        return None;
    }
    soon_ends(bytes, o, head)
}

// The same at any first byte from 2 up. From 133 up it begins a number above 512, of two or three bytes most often.
fn look(bytes: &[u8], hints: &[u8], o: usize) -> Option<usize>
    requires o_in_bounds { (o + 2 < length bytes.now) × (2 ≤ get_or bytes.now o 0) }
    requires sizes_fit { (length bytes.now ≤ largest_region) × (length hints.now ≤ most_columns) }
    ensures { Dismissed bytes.now hints.now o result }
{
    let first = wide(bytes[o]) as usize;
    if first < 128 {
        return look_header(bytes, hints, o, first);
    }
    if first < 133 {
        return None;
    }
    if bytes[o + 1] < 128 {
        return Some(2);
    }
    if bytes[o + 2] < 128 {
        return Some(3);
    }
    None
}

// Where bytes below 2 end, from a place on. A gap may be all zeros, so this loop does nothing else.
fn low_end(bytes: &[u8], start: usize) -> usize
    ensures { LowTo bytes.now start result }
{
    for at in start..bytes.len() {
        if bytes[at] > 1 {
            return at;
        }
    }
    start.max(bytes.len())
}

// Passes over offsets at which this is soon seen. A first byte below 2 is too short a header.
fn pass_seen(bytes: &[u8], hints: &[u8], start: usize, last: usize) -> PassedOver
    requires { (last ≤ length bytes.now - 2) × (length bytes.now ≤ largest_region) × (length hints.now ≤ most_columns) }
    ensures { PassedOverIs bytes.now hints.now start last result.to result.read }
{
    let mut read: usize = 0;
    for o in start..last {
        if bytes[o] < 2 {
            read += 1;
            continue;
        }
        let Some(r) = look(bytes, hints, o) else {
            return PassedOver { to: o, read };
        };
        read += r;
    }
    PassedOver {
        to: start.max(last),
        read,
    }
}

// The same of first bytes from 133 up in a run: they begin numbers above 512.
fn pass_high(bytes: &[u8], hints: &[u8], start: usize, last: usize, run: High) -> PassedOver
    requires last_in_bounds { (last ≤ length bytes.now) × (length bytes.now ≤ largest_region) }
    requires holds { Holds bytes.now start run }
    ensures { PassedOverIs bytes.now hints.now start last result.to result.read }
{
    let end = run.to.min(last);
    let mut read: usize = 0;
    for o in start..end {
        if bytes[o] < 133 {
            return PassedOver { to: o, read };
        }
        read += varint_end(bytes.len(), run.to, o) - o;
    }
    PassedOver {
        to: start.max(end),
        read,
    }
}

// A header of 2 to 127 bytes that ends in a run; with the run that was met last.
fn pass_header(bytes: &[u8], hints: &[u8], o: usize, head: usize, run: High) -> (PassedOver, High)
    requires o_in_bounds { (o < length bytes.now) × (head ≡ get_or bytes.now o 0) × (2 ≤ head) × (head < 128) }
    requires sizes_fit { (length bytes.now ≤ largest_region) × (length hints.now ≤ most_columns) }
    requires high { IsHigh bytes.now run }
    ensures { PassedWithRunIs bytes.now hints.now o (o + 1) result.0 result.1 }
{
    if head > bytes.len() - o
        || bytes[o + head - 1] < 128
        || may_stand(hints.len(), bytes, o, head)
    {
        return (PassedOver { to: o, read: 0 }, run);
    }
    let around = run_around(bytes, o + head - 1, run);
    let read = types_end(bytes, o, head, around) - o;
    (PassedOver { to: o + 1, read }, around)
}

// Offsets at which a run of high bytes decides; with the run that was met last.
fn pass_run(bytes: &[u8], hints: &[u8], o: usize, last: usize, run: High) -> (PassedOver, High)
    requires o_lt_last { (o < last) × (last ≤ length bytes.now) × (length bytes.now ≤ largest_region) × (length hints.now ≤ most_columns) }
    requires high { IsHigh bytes.now run }
    ensures { PassedWithRunIs bytes.now hints.now o last result.0 result.1 }
{
    let first = wide(bytes[o]);
    if first < 2 {
        return (PassedOver { to: o, read: 0 }, run);
    }
    if first < 128 {
        return pass_header(bytes, hints, o, first as usize, run);
    }
    let around = run_around(bytes, o, run);
    (pass_high(bytes, hints, o, last, around), around)
}

// A row that starts here, or one step on: past what a run decides, or else by an attempt; with the run that was met last.
fn one_step(
    bytes: &[u8],
    hints: &[u8],
    o: usize,
    last: usize,
    run: High,
) -> (Result<Find, PassedOver>, High)
    requires last_in_bounds { (last ≤ length bytes.now) × (length bytes.now ≤ largest_region) × (length hints.now ≤ most_columns) }
    requires high { IsHigh bytes.now run }
    ensures { StepSays bytes.now hints.now o last result.0 result.1 }
{
    if o >= last {
        return (Err(PassedOver { to: o, read: 0 }), run);
    }
    // The run is kept, or each offset in it would look for its ends anew.
    let (passed, met) = pass_run(bytes, hints, o, last, run);
    if passed.to > o {
        return (Err(passed), met);
    }
    match attempt(bytes, hints, o) {
        Ok(find) => (Ok(find), met),
        Err(miss) => {
            let passed = PassedOver {
                to: o + 1,
                read: miss.read,
            };
            (Err(passed), met)
        }
    }
}

// The offset at which a scan of so many bytes is through.
pub fn last_of(len: usize) -> usize
    ensures { result ≡ len - 2 }
{
    len.saturating_sub(2)
}

// The first row from `start` on that starts before `last`. What is known of a run of high bytes is handed on from call to call.
pub fn next_row(bytes: &[u8], hints: &[u8], start: usize, last: usize, run: High) -> Next
    requires last_in_bounds { (last ≤ length bytes.now - 2) × (length bytes.now ≤ largest_region) × (length hints.now ≤ most_columns) }
    requires high { IsHigh bytes.now run }
    ensures { NextSays bytes.now hints.now start last result }
{
    // Rows often stand one behind the other, so the first step is the slow one.
    let mut at = low_end(&bytes[0..last], start);
    let mut read = at - start;
    let mut met = run;
    loop {
        let (step, around) = one_step(bytes, hints, at, last, met);
        met = around;
        let passed = match step {
            Ok(find) => {
                let row = Some(Row { at, find, run: met });
                return Next { row, read };
            }
            Err(passed) => passed,
        };
        let seen = pass_seen(bytes, hints, passed.to, last);
        read += passed.read + seen.read;
        at = seen.to;
        if at >= last {
            return Next { row: None, read };
        }
    }
}
