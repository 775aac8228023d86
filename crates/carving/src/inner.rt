// Carving one page, in the way that is asked for.
ghost use Rattle.std.specs.Prelude.{◌≡◌, false, ◌≤◌, ltb, length};
ghost use Rattle.carving.specs.Calls.{hits_by, width_by};
ghost use Rattle.hit.specs.Inner.{Ready};
ghost use Rattle.sheet.specs.Inner.{told_by, Adds};

use cells::inner::carve_payload;
use hit::inner::Spot;
use rebuild::rebuilding::Rebuilding;
use sheet::MOST_COLUMNS;
use sheet::inner::Sheet;

// A switch, and no closure: `hits_by` and the clauses of all calls speak of it.
#[derive(Clone, Copy, Debug, PartialEq, Eq)]
pub enum Carving {
    // The blocks of the page's chain.
    Freeblocks,
    // The gap behind its cell pointers, and then its blocks.
    Gaps(Rebuilding),
    // The bytes are no page, but the payload of one block.
    Payload(Rebuilding),
}

impl Carving {
    // In freeblocks by themselves no header is rebuilt.
    fn most_columns(self) -> usize
        ensures { result ≡ width_by self }
    {
        match self {
            Carving::Freeblocks => MOST_COLUMNS,
            Carving::Gaps(rebuilding) => rebuilding.most_columns(),
            Carving::Payload(rebuilding) => rebuilding.most_columns(),
        }
    }

    // A table of so many columns is not carved in this way.
    pub fn refuses(self, columns: usize) -> bool
        ensures { result ≡ ltb (width_by self) columns }
    {
        columns > self.most_columns()
    }
}

// The b-tree header stands at `head`.
pub fn carve_page(
    how: Carving,
    page: &[u8],
    head: usize,
    hints: &[u8],
    spot: Spot,
    sheet: &mut Sheet<'_>,
) -> Option<()>
    requires hints_len_bound { length hints.now ≤ width_by how }
    requires ready { Ready (length page.now) (length hints.now) spot sheet.old }
    ensures { Adds (hits_by how page.now head hints.now spot) false sheet.old
        (told_by result sheet.new) sheet.new }
{
    match how {
        Carving::Freeblocks => freeblock::inner::carve_page(page, head, hints, spot, sheet),
        Carving::Gaps(rebuilding) => {
            gap::inner::carve_page(rebuilding, page, head, hints, spot, sheet)
        }
        Carving::Payload(rebuilding) => carve_payload(rebuilding, page, hints, spot, 0, sheet),
    }
}
