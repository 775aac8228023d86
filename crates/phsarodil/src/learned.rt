// Hints learned from rows that were read, and carving with them.
ghost use Rattle.std.specs.Prelude.{◌≡◌};
ghost use Rattle.learn.specs.Learn.{learn_filling};
ghost use Rattle.phsarodil.specs.Returns.{list_return, filled_list, row_return, filled_rows};
ghost use Rattle.unalloc.specs.Learned.{learned_filling};

use learn::learn::learn_signatures;
use sheet::answer::Answer;
use unalloc::unalloc::carve_unallocated;

#[unsafe(no_mangle)]
pub extern "C" fn phs_learn_signatures(
    bytes: &[u8],
    width: usize,
    entries: &[u64],
    types: &mut [u64],
    out: &mut [u64; 1],
) -> u64
    ensures { list_return result out.new types.new ≡ filled_list
        (learn_filling bytes.now width entries.now types.old) }
{
    let filled = learn_signatures(bytes, width, entries, types);
    *out = [filled.written()];
    filled.number()
}

#[unsafe(no_mangle)]
pub extern "C" fn phs_carve_unallocated(
    region: &[u8],
    types: &[u64],
    base: u64,
    rows: &mut [u64],
    cols: &mut [u64],
    out: &mut [u64; 1],
) -> u64
    ensures { row_return result out.new rows.new cols.new ≡ filled_rows
        (learned_filling region.now types.now base rows.old cols.old) }
{
    let filled = carve_unallocated(region, types, base, rows, cols);
    *out = [filled.written()];
    filled.number()
}
