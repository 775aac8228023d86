// Shows the record on standard input: its header's length, then the type and the value of each column.
#![tactic(auto)]

ghost use Rattle.std.specs.Prelude.{◌≤◌, length};

use record::record::{Value, decode_serial_type};
use record::varint::Cursor;
use streams::{Output, fail, has_word, read_whole, say_aside};

// As much as a row may be long, and a byte more, which tells a longer input.
const LONGEST: usize = 65_536;

const SPACE: usize = LONGEST + 1;

// The two hexadecimal digits of each byte.
fn say_hex(out: Output, bytes: &[u8]) -> Output {
    bytes
        .iter()
        .fold(out, |out, byte| out.say_hex(u64::from(*byte), 2))
}

fn say_int(out: Output, v: i64) -> Output {
    let out = out.say(if v < 0 { b"int -" } else { b"int " });
    out.say_decimal(v.unsigned_abs())
}

fn say_value(out: Output, value: Value, body: &[u8]) -> Output {
    match value {
        Value::Null => out.say(b"null"),
        Value::Int(v) => say_int(out, v),
        Value::Real(_) => say_hex(out.say(b"real 0x"), body),
        Value::Text { .. } => out.say(b"text ").say(body),
        Value::Blob { .. } => say_hex(out.say(b"blob 0x"), body),
    }
}

#[derive(Clone, Copy)]
struct Column {
    out: Output,
    // Where the next one's body starts.
    next: usize,
}

fn say_column(out: Output, kind: u64, bytes: &[u8], start: usize) -> Column
    requires { start ≤ length bytes.now }
    ensures { result.next ≤ length bytes.now }
{
    let out = out.say(b"type ").say_decimal(kind).say(b" ");
    let Some((value, n)) = decode_serial_type(kind, bytes, start) else {
        return Column {
            out: out.say(b"does not fit\n"),
            next: start,
        };
    };
    let next = start + n;
    Column {
        out: say_value(out, value, &bytes[start..next]).say(b"\n"),
        next,
    }
}

// The columns whose types stand from `from` up to the header's end.
fn say_columns(out: Output, bytes: &[u8], from: usize, header: usize) -> Output
    requires { header ≤ length bytes.now }
{
    let mut out = out;
    let mut at = from;
    let mut body = header;
    while at < header {
        let Some((kind, next)) = Cursor::new(at).serial_type(bytes) else {
            return out.say(b"cut off\n");
        };
        let column = say_column(out, kind, bytes, body);
        out = column.out;
        body = column.next;
        at = next.at;
    }
    out
}

fn say_record(out: Output, bytes: &[u8]) -> Output {
    let Some((header, next)) = Cursor::new(0).header_length(bytes) else {
        return out.say(b"no header\n");
    };
    let out = out.say(b"header ").say_decimal(header).say(b"\n");
    if header > bytes.len() as u64 {
        return out.say(b"cut off\n");
    }
    say_columns(out, bytes, next.at, header as usize)
}

fn say_usage(rt: HostRuntime) {
    say_aside(
        rt,
        b"readrecord: takes no words, and reads one record from standard input\n",
    );
}

fn answer(rt: HostRuntime, bytes: &[u8]) {
    if bytes.len() > LONGEST {
        say_aside(
            rt,
            b"readrecord: standard input: longer than 65,536 bytes\n",
        );
        return;
    }
    if bytes.is_empty() {
        say_usage(rt);
    }
    say_record(Output::new(rt), bytes).end(b"readrecord: standard output");
}

fn main(rt: HostRuntime) {
    if has_word(&rt, 1) {
        say_usage(rt);
        return;
    }
    // As long as a record may be: nothing is allocated.
    let mut space = [0; SPACE];
    match read_whole(&rt, &mut rt.stdin(), &mut space) {
        Ok(n) => answer(rt, &space[..n]),
        Err(error) => fail(rt, b"readrecord: standard input", error),
    }
}
