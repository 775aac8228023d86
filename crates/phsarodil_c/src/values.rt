// Varints, serial types, values and column entries.
ghost use Rattle.std.specs.Prelude.{◌≡◌};
ghost use Rattle.phsarodil.specs.Door.{varint_words, length_words, decoded_words, entry_of, entry_words, view_words};
ghost use Rattle.record.specs.Entry.{read_entry, refusal_of, entry_bytes};
ghost use Rattle.record.specs.Value.{body_length, decode_at};
ghost use Rattle.record.specs.Varint.{read_varint};

use phsarodil::values;

#[unsafe(no_mangle)]
pub extern "C" fn phs_read_varint(bytes: &[u8], offset: usize, out: &mut [u64; 4]) -> u64
    ensures number { result ≡ 0 }
    ensures out { out.new ≡ varint_words (read_varint bytes.now offset) }
{
    values::phs_read_varint(bytes, offset, out)
}

#[unsafe(no_mangle)]
pub extern "C" fn phs_body_length(kind: u64, out: &mut [u64; 2]) -> u64
    ensures number { result ≡ 0 }
    ensures out { out.new ≡ length_words (body_length kind) }
{
    values::phs_body_length(kind, out)
}

#[unsafe(no_mangle)]
pub extern "C" fn phs_decode_serial_type(
    kind: u64,
    bytes: &[u8],
    offset: usize,
    out: &mut [u64; 4],
) -> u64
    ensures number { result ≡ 0 }
    ensures out { out.new ≡ decoded_words bytes.now offset (decode_at kind bytes.now offset) }
{
    values::phs_decode_serial_type(kind, bytes, offset, out)
}

#[unsafe(no_mangle)]
pub extern "C" fn phs_read_entry(
    state: u64,
    kind: u64,
    start: u64,
    length: u64,
    bytes: &[u8],
    out: &mut [u64; 4],
) -> u64
    ensures number { result ≡ refusal_of (read_entry (entry_of state kind start length) bytes.now) }
    ensures out { out.new ≡ entry_words bytes.now start
        (read_entry (entry_of state kind start length) bytes.now) }
{
    values::phs_read_entry(state, kind, start, length, bytes, out)
}

#[unsafe(no_mangle)]
pub extern "C" fn phs_view_entry(
    state: u64,
    kind: u64,
    start: u64,
    length: u64,
    bytes: &[u8],
    out: &mut [u64; 2],
) -> u64
    ensures number { result ≡ 0 }
    ensures out { out.new ≡ view_words start (entry_bytes (entry_of state kind start length) bytes.now) }
{
    values::phs_view_entry(state, kind, start, length, bytes, out)
}
