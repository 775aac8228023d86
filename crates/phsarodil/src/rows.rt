// Hints, one attempt, and the region scan.
ghost use Rattle.std.specs.Prelude.{◌≡◌, [], ◌∷◌};
ghost use Rattle.attempt.specs.Hints.{compatible_number, compatible_word};
ghost use Rattle.phsarodil.specs.Returns.{row_return, attempted_row, scanned_rows};
ghost use Rattle.scan.specs.Once.{once_filling};
ghost use Rattle.scan.specs.Scan.{scan_asked};

use attempt::schema_sig::is_compatible;
use scan::schema_sig::{scan_region, try_parse_record};
use sheet::answer::Answer;

#[unsafe(no_mangle)]
pub extern "C" fn phs_is_compatible(hint: u8, kind: u64, out: &mut [u64; 1]) -> u64
    ensures number { result ≡ compatible_number hint }
    ensures out { out.new ≡ compatible_word hint kind ∷ [] }
{
    match is_compatible(hint, kind) {
        Ok(suits) => {
            *out = [suits as u64];
            0
        }
        Err(refusal) => {
            *out = [0];
            refusal.number()
        }
    }
}

#[unsafe(no_mangle)]
pub extern "C" fn phs_try_parse_record(
    region: &[u8],
    hints: &[u8],
    base: u64,
    offset: usize,
    rows: &mut [u64],
    cols: &mut [u64],
    out: &mut [u64; 3],
) -> u64
    ensures { row_return result out.new rows.new cols.new ≡ attempted_row
        (once_filling region.now hints.now base offset rows.old cols.old) }
{
    let answer = try_parse_record(region, hints, base, offset, rows, cols);
    *out = [answer.written(), 0, 0];
    answer.number()
}

#[unsafe(no_mangle)]
pub extern "C" fn phs_scan_region(
    region: &[u8],
    hints: &[u8],
    base: u64,
    start: usize,
    rows: &mut [u64],
    cols: &mut [u64],
    out: &mut [u64; 3],
) -> u64
    ensures { row_return result out.new rows.new cols.new ≡ scanned_rows
        (scan_asked region.now hints.now base start rows.old cols.old) }
{
    match scan_region(region, hints, base, start, rows, cols) {
        Ok(scanned) => {
            let rows = scanned.rows;
            *out = [rows.written(), scanned.place as u64, scanned.read as u64];
            rows.number()
        }
        Err(refusal) => {
            *out = [0, 0, 0];
            refusal.number()
        }
    }
}
