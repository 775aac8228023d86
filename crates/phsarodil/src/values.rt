// Varints, serial types, values and column entries.
ghost use Rattle.std.specs.Prelude.{◌≡◌};
ghost use Rattle.phsarodil.specs.Door.{varint_words, length_words, decoded_words, entry_of, entry_words, view_words};
ghost use Rattle.record.specs.Entry.{read_entry, refusal_of, entry_bytes};
ghost use Rattle.record.specs.Value.{body_length, decode_at};
ghost use Rattle.record.specs.Varint.{read_varint};

use record::entry::Entry;
use record::record::{body_length, decode_serial_type};
use record::varint::read_varint;
use tagged::inner::{bits_of, number_of, tag_of};

#[unsafe(no_mangle)]
pub extern "C" fn phs_read_varint(bytes: &[u8], offset: usize, out: &mut [u64; 4]) -> u64
    ensures number { result ≡ 0 }
    ensures out { out.new ≡ varint_words (read_varint bytes.now offset) }
{
    *out = match read_varint(bytes, offset) {
        Some(n) => [1, n.value, n.len as u64, n.padded as u64],
        None => [0, 0, 0, 0],
    };
    0
}

#[unsafe(no_mangle)]
pub extern "C" fn phs_body_length(kind: u64, out: &mut [u64; 2]) -> u64
    ensures number { result ≡ 0 }
    ensures out { out.new ≡ length_words (body_length kind) }
{
    *out = match body_length(kind) {
        Some(n) => [1, n as u64],
        None => [0, 0],
    };
    0
}

#[unsafe(no_mangle)]
pub extern "C" fn phs_decode_serial_type(
    kind: u64,
    bytes: &[u8],
    offset: usize,
    out: &mut [u64; 4],
) -> u64
    ensures number { result ≡ 0 }
    ensures out { out.new ≡ decoded_words bytes.now offset (decode_at kind bytes.now offset) }
{
    let Some((value, n)) = decode_serial_type(kind, bytes, offset) else {
        *out = [0, 0, 0, 0];
        return 0;
    };
    let tag = tag_of(value);
    let bits = bits_of(value, bytes, offset);
    let from = value.start();
    *out = [tag, bits, from as u64, n as u64];
    0
}

#[unsafe(no_mangle)]
pub extern "C" fn phs_read_entry(
    state: u64,
    kind: u64,
    start: u64,
    length: u64,
    bytes: &[u8],
    out: &mut [u64; 4],
) -> u64
    ensures number { result ≡ refusal_of (read_entry (entry_of state kind start length) bytes.now) }
    ensures out { out.new ≡ entry_words bytes.now start
        (read_entry (entry_of state kind start length) bytes.now) }
{
    let entry = Entry {
        state,
        kind,
        start,
        len: length,
    };
    let Some(value) = entry.read(bytes) else {
        *out = [0, 0, 0, 0];
        return number_of(None);
    };
    let tag = tag_of(value);
    let bits = bits_of(value, bytes, start as usize);
    let from = value.start();
    let size = value.len();
    *out = [tag, bits, from as u64, size as u64];
    0
}

#[unsafe(no_mangle)]
pub extern "C" fn phs_view_entry(
    state: u64,
    kind: u64,
    start: u64,
    length: u64,
    bytes: &[u8],
    out: &mut [u64; 2],
) -> u64
    ensures number { result ≡ 0 }
    ensures out { out.new ≡ view_words start (entry_bytes (entry_of state kind start length) bytes.now) }
{
    let entry = Entry {
        state,
        kind,
        start,
        len: length,
    };
    let view = entry.view(bytes);
    if view.len() == 0 {
        *out = [0, 0];
        return 0;
    }
    *out = [start, view.len() as u64];
    0
}
