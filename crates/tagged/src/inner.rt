// Tag and bits of a value, and the number of an entry, for our own crates.
ghost use Rattle.std.specs.Prelude.{◌≡◌};
ghost use Rattle.record.specs.Entry.{refusal_of};
ghost use Rattle.record.specs.Inner.{BodyThere};
ghost use Rattle.tagged.specs.Tagged.{tag_of, bits_of};

use record::inner::big_endian;
use record::record::Value;

// As the C interface numbers them.
pub fn tag_of(value: Value) -> u64
    ensures { result ≡ tag_of value }
{
    match value {
        Value::Null => 1,
        Value::Int(_) => 2,
        Value::Real(_) => 3,
        Value::Text { .. } => 4,
        Value::Blob { .. } => 5,
    }
}

// A real's bits are read from its body at `at`, for an f64 would lose a NaN's payload.
pub fn bits_of(value: Value, bytes: &[u8], at: usize) -> u64
    requires { BodyThere bytes.now at value }
    ensures { result ≡ bits_of bytes.now at value }
{
    match value {
        // A negative v is kept as 2^64 + v.
        Value::Int(v) => v.cast_unsigned(),
        Value::Real(_) => big_endian(bytes, at, 8),
        Value::Null | Value::Text { .. } | Value::Blob { .. } => 0,
    }
}

// Of what an entry reads as: none is refusal 2, which the C interface gives as a number.
pub fn number_of(read: Option<Value>) -> u64
    ensures { result ≡ refusal_of read }
{
    match read {
        Some(_) => 0,
        None => 2,
    }
}
