// The call on the freeblocks of tables. Its lists stay apart, as the C interface lends them.
ghost use Rattle.carving.specs.declared.inner.Carving.TheVariants.{Freeblocks};
ghost use Rattle.tables.specs.Calls.{TablesPromises, asked, on_tables};

use crate::tables::carve_tables;
use carving::inner::Carving;
use sheet::refusal::Refusal;
use walk::walk::Walked;

pub fn recover_freeblocks(
    db: &[u8],
    size: u64,
    roots: &[u64],
    counts: &[u64],
    hints: &[u8],
    flags: &mut [u8],
    stack: &mut [u64],
    rows: &mut [u64],
    cols: &mut [u64],
) -> Result<Walked, Refusal>
    ensures { TablesPromises (asked Freeblocks db.now size roots.now counts.now hints.now flags.old stack.old rows.old cols.old)
        (on_tables result flags.new stack.new rows.new cols.new) }
{
    carve_tables(
        Carving::Freeblocks,
        db,
        size,
        roots,
        counts,
        hints,
        flags,
        stack,
        rows,
        cols,
    )
}
