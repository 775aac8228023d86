// The checks that a call on a slice of bytes begins with.
ghost use Rattle.std.specs.Prelude.{◌≡◌};
ghost use Rattle.sheet.specs.Refusal.{first_held};
ghost use Rattle.sheet.specs.Slice.{slice_checks, counted_checks, reach_checks};

use crate::hint::{hint_count_fits, hints_known};
use crate::refusal::Refusal;
use crate::{LARGEST_BASE, LARGEST_REGION};

// In rising order of their numbers.
pub fn check_slice(len: usize, hints: &[u8], base: u64) -> Result<(), Refusal>
    ensures { result ≡ first_held (slice_checks len hints.now base) }
{
    if !hint_count_fits(hints.len()) {
        return Err(Refusal::ColumnCount);
    }
    if !hints_known(hints) {
        return Err(Refusal::Malformed);
    }
    check_reach(len, base)
}

// The same of a call that is told how many columns there are, and no more of them.
pub fn check_counted(len: usize, columns: usize, base: u64) -> Result<(), Refusal>
    ensures { result ≡ first_held (counted_checks len columns base) }
{
    if !hint_count_fits(columns) {
        return Err(Refusal::ColumnCount);
    }
    check_reach(len, base)
}

// Where the bytes end, and where they lie.
fn check_reach(len: usize, base: u64) -> Result<(), Refusal>
    ensures { result ≡ first_held (reach_checks len base) }
{
    if len > LARGEST_REGION {
        Err(Refusal::TooLarge)
    } else if base > LARGEST_BASE {
        Err(Refusal::BaseTooFar)
    } else {
        Ok(())
    }
}
