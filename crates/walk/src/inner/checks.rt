// What every call over tables begins with: its checks, and how wide its groups are.
ghost use Rattle.std.specs.Prelude.{◌≡◌, not, ◌||◌, eqb, length};
ghost use Rattle.sheet.specs.Limits.{hints_known};
ghost use Rattle.sheet.specs.Refusal.{first_held};
ghost use Rattle.walk.specs.Carve.{sum_of, widest as widest_of, counts_fit, table_checks};

use page::inner::size_fits;
use sheet::hint::{hint_count_fits, hints_known};
use sheet::refusal::Refusal;
use sheet::{LARGEST_REGION, MOST_TABLES};

pub fn counts_fit(counts: &[u64]) -> bool
    ensures { result ≡ counts_fit counts.now }
{
    counts.iter().all(|count| hint_count_fits(*count as usize))
}

// Taken off one by one, since the sum may pass what a usize holds.
fn sum_is(counts: &[u64], total: usize) -> bool
    ensures { result ≡ eqb (sum_of counts.now) total }
{
    let mut left = total as u64;
    for count in counts {
        if *count > left {
            return false;
        }
        left -= *count;
    }
    left == 0
}

pub fn widest(counts: &[u64]) -> usize
    ensures { result ≡ widest_of counts.now }
{
    counts.iter().fold(0, |most: u64, count| most.max(*count)) as usize
}

// Lists that do not belong together, or a hint that is none.
fn malformed(roots: &[u64], counts: &[u64], hints: &[u8]) -> bool
    ensures { result ≡ not (eqb (length roots.now) (length counts.now)) ||
        (not (eqb (sum_of counts.now) (length hints.now)) || not (hints_known hints.now)) }
{
    roots.len() != counts.len() || !sum_is(counts, hints.len()) || !hints_known(hints)
}

// In rising order of their numbers.
pub fn check(
    len: usize,
    size: u64,
    roots: &[u64],
    counts: &[u64],
    hints: &[u8],
) -> Result<(), Refusal>
    ensures { result ≡ first_held (table_checks len size roots.now counts.now hints.now) }
{
    if !counts_fit(counts) {
        Err(Refusal::ColumnCount)
    } else if malformed(roots, counts, hints) {
        Err(Refusal::Malformed)
    } else if len > LARGEST_REGION || roots.len() > MOST_TABLES {
        Err(Refusal::TooLarge)
    } else if !size_fits(size) {
        Err(Refusal::PageSize)
    } else {
        Ok(())
    }
}
