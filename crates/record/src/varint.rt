// Varints, read at a cursor that goes in by value and comes back behind what it read.
ghost use Rattle.std.specs.Prelude.{◌≡◌};
ghost use Rattle.record.specs.Varint.{fresh, width_of, ended as ended_as, varint_at, read_varint};

use crate::inner::wide;

// A place in a slice that stands beside it, and whether the number that was read before it is padded: longer than its shortest form. Where
// none was read, it is not.
#[derive(Clone, Copy, Debug, PartialEq, Eq)]
pub struct Cursor {
    pub at: usize,
    pub padded: bool,
}

// A number that was read, how many bytes it takes, and whether it is padded.
#[derive(Clone, Copy, Debug, PartialEq, Eq)]
pub struct Number {
    pub value: u64,
    pub len: usize,
    pub padded: bool,
}

// From here on a number takes nine bytes, the last of which has eight bits.
const NINE_BYTES_FROM: u64 = 1 << 56;

// The bytes of a number's shortest form, by its highest set bit. 0 has none, and takes one byte.
#[tactic(auto, unfolding(crate::specs::Varint::width_of))]
fn width_of(v: u64) -> u64
    ensures { result ≡ width_of v }
{
    match v {
        0 => 1,
        NINE_BYTES_FROM.. => 9,
        _ => 1 + (63 - v.leading_zeros() as u64) / 7,
    }
}

// A number that was read from n bytes, the last of which stands before `at`.
fn ended(value: u64, n: u64, at: usize) -> Option<(u64, Cursor)>
    ensures { result ≡ ended_as value n at }
{
    let padded = width_of(value) < n;
    Some((value, Cursor { at, padded }))
}

impl Cursor {
    // One that has read nothing.
    pub fn new(at: usize) -> Self
        ensures { result ≡ fresh at }
    {
        Cursor { at, padded: false }
    }

    // The value, and the cursor behind its bytes; none where the slice ends before the varint does.
    pub fn varint(self, bytes: &[u8]) -> Option<(u64, Cursor)>
        ensures { result ≡ varint_at bytes.now self.at }
    {
        let mut at = self.at;
        let mut v: u64 = 0;
        for n in 0..8 {
            let b = wide(*bytes.get(at)?);
            at += 1;
            if b < 128 {
                return ended(v * 128 + b, n + 1, at);
            }
            v = v * 128 + b % 128;
        }
        ended(v * 256 + wide(*bytes.get(at)?), 9, at + 1)
    }

    // The same, at once where it is one byte.
    #[tactic(auto, using(crate::proofs::Laws::varint_low))]
    pub fn often_short(self, bytes: &[u8]) -> Option<(u64, Cursor)>
        ensures { result ≡ varint_at bytes.now self.at }
    {
        match bytes.get(self.at) {
            Some(first) if *first < 128 => Some((wide(*first), Cursor::new(self.at + 1))),
            _ => self.varint(bytes),
        }
    }

    // A record starts with its header's length,
    pub fn header_length(self, bytes: &[u8]) -> Option<(u64, Cursor)>
        ensures { result ≡ varint_at bytes.now self.at }
    {
        self.often_short(bytes)
    }

    // and behind it stands a type for each column. The two are one reading; each place says which of a record's numbers it reads.
    pub fn serial_type(self, bytes: &[u8]) -> Option<(u64, Cursor)>
        ensures { result ≡ varint_at bytes.now self.at }
    {
        self.often_short(bytes)
    }
}

#[tactic(auto, using(crate::proofs::Laws::varint_lies), unfolding(crate::specs::Varint::read_varint))]
pub fn read_varint(bytes: &[u8], offset: usize) -> Option<Number>
    ensures { result ≡ read_varint bytes.now offset }
{
    let (value, next) = Cursor::new(offset).varint(bytes)?;
    Some(Number {
        value,
        len: next.at - offset,
        padded: next.padded,
    })
}
