// The three modes: rows of a block with their headers, or with what is left of them.
ghost use Rattle.std.specs.Prelude.{◌≡◌};
ghost use Rattle.modes.specs.Modes.{modes_filling};
ghost use Rattle.phsarodil.specs.Returns.{row_return, filled_rows};

use modes::carver::carve_freeblock;
use sheet::answer::Answer;

#[unsafe(no_mangle)]
pub extern "C" fn phs_carve_freeblock(
    bytes: &[u8],
    base: u64,
    columns: usize,
    rows: &mut [u64],
    cols: &mut [u64],
    out: &mut [u64; 1],
) -> u64
    ensures { row_return result out.new rows.new cols.new ≡ filled_rows
        (modes_filling bytes.now base columns rows.old cols.old) }
{
    let filled = carve_freeblock(bytes, base, columns, rows, cols);
    *out = [filled.written()];
    filled.number()
}
