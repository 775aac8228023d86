// The input: a count, as many hint codes, and the region.
ghost use Rattle.std.specs.Prelude.{◌≡◌};
ghost use Rattle.listing.specs.Input.{count_of, input_checks};
ghost use Rattle.sheet.specs.Refusal.{first_held};

use record::inner::big_endian;
use sheet::hint::{hint_count_fits, hints_known};
use sheet::refusal::Refusal;

// In bytes.
pub const LARGEST_INPUT: usize = 65_536;
// The bytes of the count.
pub const COUNT_BYTES: usize = 2;

// How many hints there should be; 0 where the count is missing.
#[tactic(auto, unfolding(crate::specs::Input::count_of))]
pub fn count_of(input: &[u8]) -> usize
    ensures { result ≡ count_of input.now }
{
    if input.len() < COUNT_BYTES {
        0
    } else {
        big_endian(input, 0, COUNT_BYTES) as usize
    }
}

// Whether the input can be scanned.
pub fn judge(input: &[u8]) -> Result<(), Refusal>
    ensures { result ≡ first_held (input_checks input.now) }
{
    if input.len() > LARGEST_INPUT {
        return Err(Refusal::TooLarge);
    }
    let count = count_of(input);
    if !hint_count_fits(count) {
        return Err(Refusal::ColumnCount);
    }
    match input.get(COUNT_BYTES..COUNT_BYTES + count) {
        Some(hints) if hints_known(hints) => Ok(()),
        _ => Err(Refusal::Malformed),
    }
}
