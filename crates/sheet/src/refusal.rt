// Why a call is refused, each by its number.
// The tests behind the first two, named here too.
ghost use Rattle.std.specs.Prelude.{◌≡◌};
ghost use Rattle.sheet.specs.Refusal.{refusal_number};

pub use crate::hint::hints_known;

#[derive(Clone, Copy, Debug, PartialEq, Eq)]
pub enum Refusal {
    // No columns, or more than there may be: as lent, or as a statement gives them.
    ColumnCount = 1,
    // An unknown hint code, table lists that do not belong together, or an entry that names no value.
    Malformed = 2,
    // More bytes, tables or rows than a call takes.
    TooLarge = 3,
    // The base is so far on that offsets might not fit.
    BaseTooFar = 4,
    // Not one of the page sizes that the file format has.
    PageSize = 5,
    // Page 0, or a page that the database does not hold whole.
    NoSuchPage = 6,
    // A statement with no brackets around its columns.
    NoColumnList = 7,
    // Too few flags for the pages, or a page that the stack cannot take.
    WalkSpace = 8,
    // One thing more to write than the lent list can take: what is written then is said beside it.
    NoRoom = 9,
}

impl Refusal {
    pub fn number(self) -> u64
        ensures { result ≡ refusal_number self }
    {
        self as u64
    }
}
