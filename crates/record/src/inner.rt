// Numbers out of bytes, for our own crates: callers show by proof that the bytes are there.
ghost use Rattle.std.specs.Prelude.{◌≡◌, ◌+◌, ◌*◌, ◌^◌, ◌≤◌, ◌<◌, length};
ghost use Rattle.record.specs.Places.{stop_of};
ghost use Rattle.record.specs.Value.{big_endian};
ghost use Rattle.record.specs.Varint.{varint_at};

// As a cast, or u64 made from it: by this name the proofs of `filter` and `page` know what a byte gives.
pub fn wide(x: u8) -> u64
    ensures { result ≡ x }
{
    x as u64
}

// The number that n bytes are, the highest first.
pub fn big_endian(bytes: &[u8], at: usize, n: usize) -> u64
    requires n_in_bounds { at + n ≤ length bytes.now }
    requires n_bound { n ≤ 8 }
    ensures value { result ≡ big_endian bytes.now at n }
    ensures small { result < 2 ^ (8 * n) }
{
    let mut v: u64 = 0;
    for byte in &bytes[at..at + n] {
        v = v * 256 + wide(*byte);
    }
    v
}

// Where reading the varint at `from` stops, with nothing decoded: behind it, or at the slice's end where it runs off.
pub fn skip_varint(bytes: &[u8], from: usize) -> usize
    ensures { result ≡ stop_of bytes.now (varint_at bytes.now from) }
{
    let mut at = from;
    for _ in 0..8usize {
        if at >= bytes.len() {
            return bytes.len();
        }
        if bytes[at] < 128 {
            return at + 1;
        }
        at += 1;
    }
    if at < bytes.len() {
        at + 1
    } else {
        bytes.len()
    }
}
