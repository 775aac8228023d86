// The types of a header, with none of them decoded: whether they are so many, and where reading them ends.
ghost use Rattle.std.specs.Prelude.{◌≡◌, ◌+◌, ◌≤◌};
ghost use Rattle.attempt.specs.Inner.{header_types, reach, Headed, Miscounted, Ends};

use record::inner::skip_varint;

// Whether types that are whole are seen to be other than so many. As many bytes as columns are most often as many types, which their
// decoding tells.
pub fn miscounted(columns: usize, bytes: &[u8], o: usize, head: usize, from: usize) -> bool
    requires { Headed bytes.now o head from }
    ensures { Miscounted (header_types bytes.now o head from) columns result }
{
    if columns < head && from - o == head - columns {
        return false;
    }
    let stop = o + head;
    let mut at = from;
    for _ in 0..columns {
        if at >= stop {
            return true;
        }
        at = skip_varint(bytes, at);
    }
    at < stop
}

// A byte below 128 ends a type, so reading comes to where the last of these ends.
fn last_end(bytes: &[u8], o: usize, head: usize, from: usize) -> usize
    requires headed { Headed bytes.now o head from }
    requires from_bound { from ≤ o + head }
    ensures { Ends bytes.now (header_types bytes.now o head from) result (o + head) }
{
    for last in (from..o + head).rev() {
        if bytes[last] < 128 {
            return last + 1;
        }
    }
    from
}

pub fn types_end(bytes: &[u8], o: usize, head: usize, from: usize) -> usize
    requires { Headed bytes.now o head from }
    ensures { result ≡ reach bytes.now (header_types bytes.now o head from) }
{
    let stop = o + head;
    if from >= stop {
        return from;
    }
    let mut at = last_end(bytes, o, head, from);
    while at < stop {
        at = skip_varint(bytes, at);
    }
    at
}
