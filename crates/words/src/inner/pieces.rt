// Pieces between commas. Callers show by proof that a piece starts in the slice, or at its end.
ghost use Rattle.std.specs.Prelude.{◌≡◌, ◌+◌, ◌≤◌, length, drop};
ghost use Rattle.words.specs.Inner.{PieceEnds};
ghost use Rattle.words.specs.Runs.{is_not, take_while};
ghost use Rattle.words.specs.Words.{comma};

use crate::runs::{Run, long_run};

// Where the piece that starts at `at` ends: at a comma, or with the slice.
pub fn piece_end(s: &[u8], at: usize) -> usize
    requires { at ≤ length s.now }
    ensures value { result ≡ at + length (take_while (is_not comma) (drop at s.now)) }
    ensures piece { PieceEnds s.now at result }
{
    at + long_run(&s[at..], Run::Until(b','))
}
