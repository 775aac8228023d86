// Runs of bytes from 128 up. A varint goes on through such bytes, so where it ends in a run is known from where the run ends.
ghost use Rattle.std.specs.Prelude.{◌≡◌, ◌+◌, ◌≤◌, ◌<◌, min, length, get_or};
ghost use Rattle.filter.specs.Inner.{Begins, Stops, IsHigh, Holds};

// From one place up to another; nothing where these are the same.
#[derive(Clone, Copy, Debug)]
pub struct High {
    pub from: usize,
    pub to: usize,
}

#[tactic(auto, using(crate::proofs::Runs::begins_behind, crate::proofs::Runs::one_lower))]
fn run_start(bytes: &[u8], p: usize) -> usize
    requires { (p < length bytes.now) × (128 ≤ get_or bytes.now p 0) }
    ensures { Begins bytes.now p result }
{
    for before in (0..p).rev() {
        if bytes[before] < 128 {
            return before + 1;
        }
    }
    0
}

fn run_end(bytes: &[u8], p: usize) -> usize
    requires { (p < length bytes.now) × (128 ≤ get_or bytes.now p 0) }
    ensures { Stops bytes.now p result }
{
    for at in p + 1..bytes.len() {
        if bytes[at] < 128 {
            return at;
        }
    }
    bytes.len()
}

// The run that a byte is in; most often it is the one that was known.
pub fn run_around(bytes: &[u8], p: usize, known: High) -> High
    requires p_in_bounds { (p < length bytes.now) × (128 ≤ get_or bytes.now p 0) }
    requires high { IsHigh bytes.now known }
    ensures { Holds bytes.now p result }
{
    if known.from <= p && p < known.to {
        return known;
    }
    High {
        from: run_start(bytes, p),
        to: run_end(bytes, p),
    }
}

// Where a varint ends that starts in a run, which ends at `to`: it has nine bytes at the most, and a byte below 128 is its last.
pub fn varint_end(len: usize, to: usize, at: usize) -> usize
    requires { (at < to) × (to ≤ len) }
    ensures { result ≡ min (min (at + 9) (to + 1)) len }
{
    if to - at > 8 {
        at + 9
    } else if to < len {
        to + 1
    } else {
        len
    }
}
