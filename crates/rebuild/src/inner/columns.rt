// As many types as there are columns, wherever they end.
ghost use Rattle.std.specs.Prelude.{◌≤◌, length};
ghost use Rattle.rebuild.specs.Inner.{ColumnsIs};
ghost use Rattle.sheet.specs.Limits.{largest_region, most_columns};

use attempt::inner::{Walk, add_body, suits_at};
use record::varint::Cursor;

// With the two bytes of its own length a header has 512.
const MOST_TYPE_BYTES: usize = 510;

// What as many types as hints come to; none if a type or a body runs off the payload, or the types take too many bytes.
pub fn walk_columns(payload: &[u8], hints: &[u8], v: usize) -> Option<Walk>
    requires v_in_bounds { (v ≤ length payload.now) × (length payload.now ≤ largest_region) }
    requires hint_count_bound { (1 ≤ length hints.now) × (length hints.now ≤ most_columns) }
    ensures { ColumnsIs payload.now hints.now v result }
{
    let last = v + MOST_TYPE_BYTES;
    let mut at = v;
    let mut padded = false;
    let mut matched: u16 = 0;
    let mut total: usize = 0;
    for count in 0..hints.len() {
        if at > last {
            return None;
        }
        let (kind, next) = Cursor::new(at).serial_type(payload)?;
        matched += suits_at(hints, count, kind);
        total = add_body(total, kind);
        at = next.at;
        // Bodies that pass the payload make no row, whatever types are left.
        if total > payload.len() - at {
            return None;
        }
        // A branch, since a type of one byte is known not to be padded and so costs nothing.
        if next.padded {
            padded = true;
        }
    }
    if at > last {
        return None;
    }
    Some(Walk {
        count: hints.len(),
        matched,
        total,
        end: at,
        padded,
    })
}
