// One freeblock: the first start of its payload at which a row stands, and the row's words.
ghost use Rattle.std.specs.Prelude.{◌≡◌, false, ◌+◌, ◌≤◌, min, length};
ghost use Rattle.freeblock.specs.Freeblock.{most_starts, first_start, first_hits, block_hits};
ghost use Rattle.freeblock.specs.Inner.{Starts};
ghost use Rattle.hit.specs.Inner.{Ready};
ghost use Rattle.sheet.specs.Limits.{largest_region};
ghost use Rattle.sheet.specs.Inner.{told_by, Adds};

use attempt::inner::{Find, attempt};
use hit::inner::{Origin, Spot, add_found};
use sheet::confidence::{freed, suited_share};
use sheet::inner::Sheet;
use sheet::row::Source;

const MOST_STARTS: usize = 20;

fn starts_of(len: usize) -> usize
    ensures { result ≡ min most_starts len }
{
    len.min(MOST_STARTS)
}

// The first start at which there is a row, and the row.
fn first_start(payload: &[u8], hints: &[u8]) -> Option<(usize, Find)>
    requires { length payload.now ≤ largest_region }
    ensures { Starts payload.now hints.now result }
{
    for v in 0..starts_of(payload.len()) {
        if let Ok(find) = attempt(&payload[v..], hints, 0) {
            return Some((v, find));
        }
    }
    None
}

// Carves a payload that is at o in its page.
fn carve_payload(
    payload: &[u8],
    o: usize,
    hints: &[u8],
    spot: Spot,
    sheet: &mut Sheet<'_>,
) -> Option<()>
    requires { Ready (o + length payload.now) (length hints.now) spot sheet.old }
    ensures { Adds (first_hits spot (length hints.now) o (first_start payload.now hints.now)) false sheet.old
        (told_by result sheet.new) sheet.new }
{
    let Some((v, find)) = first_start(payload, hints) else {
        return Some(());
    };
    // By its fields: passed on whole, it would be copied at each start, found or not.
    let find = Find {
        head: find.head,
        from: find.from,
        consumed: find.consumed,
        matched: find.matched,
        read: find.read,
        padded: find.padded,
    };
    let columns = hints.len();
    let origin = Origin {
        id: None,
        source: Source::Freelist,
        confidence: freed(suited_share(find.matched, columns as u16)),
    };
    add_found(&payload[v..], 0, find, o + v, origin, columns, spot, sheet)
}

// Carves the block of so many bytes at a place of a page.
pub fn carve_block(
    page: &[u8],
    at: usize,
    size: usize,
    hints: &[u8],
    spot: Spot,
    sheet: &mut Sheet<'_>,
) -> Option<()>
    requires le_size { (4 ≤ size) × (at + size ≤ length page.now) }
    requires ready { Ready (length page.now) (length hints.now) spot sheet.old }
    ensures { Adds (block_hits page.now hints.now spot (record { at = at; size = size })) false sheet.old
        (told_by result sheet.new) sheet.new }
{
    let from = at + 4;
    let end = at + size;
    carve_payload(&page[from..end], from, hints, spot, sheet)
}
