// In which way a header is rebuilt.
ghost use Rattle.std.specs.Prelude.{◌≡◌};
ghost use Rattle.rebuild.specs.Header.{most_by};

use sheet::MOST_COLUMNS;

// The most bytes of types behind a header length of one byte.
pub const ONE_BYTE_TYPES: usize = 126;

// Each by its code.
#[derive(Clone, Copy, Debug, PartialEq, Eq)]
pub enum Rebuilding {
    // No header is made up.
    NoGuesses = 0,
    // Each type takes one byte, as the Rust has it.
    OneByte = 1,
    // As many types as columns, of one to nine bytes each.
    Exact = 2,
}

impl Rebuilding {
    // From 127 columns on, a length of one byte would be read as the start of a longer number.
    pub fn most_columns(self) -> usize
        ensures { result ≡ most_by self }
    {
        match self {
            Rebuilding::NoGuesses | Rebuilding::Exact => MOST_COLUMNS,
            Rebuilding::OneByte => ONE_BYTE_TYPES,
        }
    }
}
