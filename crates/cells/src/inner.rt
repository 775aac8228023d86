// The payload of one freed block, for our own crates.
mod cell;
mod rebuilt;

ghost use Rattle.std.specs.Prelude.{false, ◌+◌, ◌≤◌, length};
ghost use Rattle.cells.specs.Cells.{payload_hits};
ghost use Rattle.hit.specs.Inner.{Ready};
ghost use Rattle.rebuild.specs.Header.{most_by};
ghost use Rattle.sheet.specs.Inner.{told_by, Adds};

use crate::inner::cell::carve_cells;
use crate::inner::rebuilt::carve_rebuilt;
use hit::inner::Spot;
use rebuild::rebuilding::Rebuilding;
use sheet::inner::Sheet;

// Cells first, then, if guesses are asked for, records whose header's length is lost; the payload stands at o in its page. It, its hints,
// its page and its place stay apart: what the two parts call takes some of them each, so a struct of them would be taken apart at once.
pub fn carve_payload(
    how: Rebuilding,
    payload: &[u8],
    hints: &[u8],
    spot: Spot,
    o: usize,
    sheet: &mut Sheet<'_>,
) -> Option<()>
    requires hints_len_bound { length hints.now ≤ most_by how }
    requires ready { Ready (o + length payload.now) (length hints.now) spot sheet.old }
    ensures { Adds (payload_hits how spot o payload.now hints.now) false sheet.old
        (told_by result sheet.new) sheet.new }
{
    let first = sheet.n;
    carve_cells(payload, hints, spot, o, sheet)?;
    if let Rebuilding::NoGuesses = how {
        return Some(());
    }
    carve_rebuilt(how, payload, hints, spot, o, first, sheet)
}
