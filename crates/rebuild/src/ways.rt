// The codes of the ways in which a header is rebuilt.
ghost use Rattle.std.specs.Prelude.{◌≡◌};
ghost use Rattle.rebuild.specs.Ways.{Named, unnamed_number};
ghost use Rattle.sheet.specs.Refusal.{refusal_number};

use crate::rebuilding::Rebuilding;
use sheet::refusal::Refusal;

// A code that names no way.
#[derive(Clone, Copy, Debug, PartialEq, Eq)]
pub struct UnknownWay;

impl TryFrom<u64> for Rebuilding {
    type Error = UnknownWay;

    ghost try_from_gives = { Named };

    fn try_from(code: u64) -> Result<Self, UnknownWay> {
        match code {
            0 => Ok(Rebuilding::NoGuesses),
            1 => Ok(Rebuilding::OneByte),
            2 => Ok(Rebuilding::Exact),
            _ => Err(UnknownWay),
        }
    }
}

// A code that names nothing is refused behind a count of columns that no table has.
pub fn unnamed(fits: bool) -> Refusal
    ensures { refusal_number result ≡ unnamed_number fits }
{
    if fits {
        Refusal::Malformed
    } else {
        Refusal::ColumnCount
    }
}
