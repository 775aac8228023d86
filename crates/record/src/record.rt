// Serial types: how long a body is, and the value that it stands for.
ghost use Rattle.std.specs.Prelude.{◌≡◌, true, ◌+◌, ◌*◌, ◌^◌, ◌≤◌, ◌<◌, length, get_or, Some};
ghost use Rattle.record.specs.Value.{small_lengths, body_length, body_fits, big_endian, twos_complement, value_of, decode_at};
ghost use Rattle.record.specs.Value.{start_of, length_of};

use crate::inner::big_endian;
use std::num::f64_from_bits_with_nan;

#[derive(Clone, Copy, Debug)]
pub enum Value {
    Null,
    Int(i64),
    Real(f64),
    Text { start: usize, len: usize },
    Blob { start: usize, len: usize },
}

// Nothing but a text or a blob has bytes to show. The two methods differ in a field's name alone, which no parameter can stand for.
impl Value {
    // Where they start in the slice.
    pub fn start(self) -> usize
        ensures { result ≡ start_of self }
    {
        match self {
            Value::Text { start, .. } | Value::Blob { start, .. } => start,
            Value::Null | Value::Int(_) | Value::Real(_) => 0,
        }
    }

    // How many there are.
    pub fn len(self) -> usize
        ensures { result ≡ length_of self }
    {
        match self {
            Value::Text { len, .. } | Value::Blob { len, .. } => len,
            Value::Null | Value::Int(_) | Value::Real(_) => 0,
        }
    }
}

// Of the types 0 to 9. A table would be built anew on the stack at each use.
fn small_length(kind: u64) -> usize
    requires { kind < 10 }
    ensures { result ≡ get_or small_lengths kind 0 }
{
    match kind {
        0..5 => kind as usize,
        5 => 6,
        6 | 7 => 8,
        _ => 0,
    }
}

// None of types 10 and 11, which stand for nothing.
#[tactic(auto, unfolding(crate::specs::Value::body_length))]
pub fn body_length(kind: u64) -> Option<usize>
    ensures { result ≡ body_length kind }
{
    match kind {
        0..10 => Some(small_length(kind)),
        10 | 11 => None,
        _ => Some(((kind - 12 - kind % 2) / 2) as usize),
    }
}

// The integer that n bytes are: their number, less two to the width, `whole`, where the top bit is set.
fn int_at(bytes: &[u8], at: usize, n: usize, whole: u64) -> i64
    requires n_in_bounds { at + n ≤ length bytes.now }
    requires whole_of_n_bytes { (1 ≤ n) × (n < 8) × (whole ≡ 2 ^ (8 * n)) }
    ensures { result ≡ twos_complement (8 * n) (big_endian bytes.now at n) }
{
    let v = big_endian(bytes, at, n);
    if v < whole / 2 {
        v as i64
    } else {
        v as i64 - whole as i64
    }
}

// Eight bytes by the same rule, though two to their width fits no word.
fn long_at(bytes: &[u8], at: usize) -> i64
    requires { at + 8 ≤ length bytes.now }
    ensures { result ≡ twos_complement 64 (big_endian bytes.now at 8) }
{
    big_endian(bytes, at, 8).cast_signed()
}

// The value of a type whose body is the n bytes at `at`. An integer's bytes are counted beside two to their width.
#[tactic(auto, unfolding(crate::specs::Value::value_of))]
fn value_of(kind: u64, bytes: &[u8], at: usize, n: usize) -> Value
    requires kind_value { body_length kind ≡ Some n }
    requires body_there { body_fits kind n bytes.now at ≡ true }
    ensures { result ≡ value_of kind bytes.now at n }
{
    match kind {
        0 => Value::Null,
        1 => Value::Int(int_at(bytes, at, 1, 0x100)),
        2 => Value::Int(int_at(bytes, at, 2, 0x1_0000)),
        3 => Value::Int(int_at(bytes, at, 3, 0x100_0000)),
        4 => Value::Int(int_at(bytes, at, 4, 0x1_0000_0000)),
        5 => Value::Int(int_at(bytes, at, 6, 0x1_0000_0000_0000)),
        6 => Value::Int(long_at(bytes, at)),
        7 => Value::Real(f64_from_bits_with_nan(big_endian(bytes, at, 8))),
        8 => Value::Int(0),
        9 => Value::Int(1),
        _ if kind % 2 == 0 => Value::Blob { start: at, len: n },
        _ => Value::Text { start: at, len: n },
    }
}

// Types 0, 8 and 9 have no body, so any place will do.
#[tactic(auto, unfolding(crate::specs::Value::body_fits))]
fn body_fits(kind: u64, n: usize, bytes: &[u8], at: usize) -> bool
    ensures { result ≡ body_fits kind n bytes.now at }
{
    matches!(kind, 0 | 8 | 9) || (at <= bytes.len() && n <= bytes.len() - at)
}

// The value, and how many bytes its body takes; none of a type that is reserved, or where the body leaves the slice.
#[tactic(auto, unfolding(crate::specs::Value::decode_at))]
pub fn decode_serial_type(kind: u64, bytes: &[u8], offset: usize) -> Option<(Value, usize)>
    ensures { result ≡ decode_at kind bytes.now offset }
{
    let n = body_length(kind)?;
    if body_fits(kind, n, bytes, offset) {
        Some((value_of(kind, bytes, offset, n), n))
    } else {
        None
    }
}
