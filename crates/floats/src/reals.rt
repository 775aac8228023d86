// Reals (2.7) by their own bits; the C interface has those of the slice.
use record::record::{Value, decode_serial_type};
use std::num::f64_to_bits_with_nan;
use streams::Output;

// One, minus zero and the smallest; the largest, the infinities, and NaNs on both sides of them.
const REALS: [u64; 8] = [
    0x3ff0_0000_0000_0000,
    0x8000_0000_0000_0000,
    0x0000_0000_0000_0001,
    0x7fef_ffff_ffff_ffff,
    0x7ff0_0000_0000_0000,
    0xfff0_0000_0000_0000,
    0x7ff0_0000_0000_0001,
    0xffff_ffff_ffff_ffff,
];

fn say_real(said: Output, body: u64) -> Output {
    let Some((Value::Real(x), _)) = decode_serial_type(7, &body.to_be_bytes(), 0) else {
        return said;
    };
    let said = said.say(b"real ").say_hex(body, 16);
    said.say(b": ")
        .say_hex(f64_to_bits_with_nan(x), 16)
        .say(b"\n")
}

pub(crate) fn say_all(said: Output) -> Output {
    REALS.iter().fold(said, |said, body| say_real(said, *body))
}
