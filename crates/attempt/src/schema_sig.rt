// Hints: which serial types suit them.
ghost use Rattle.std.specs.Prelude.{◌≡◌};
ghost use Rattle.attempt.specs.Hints.{compatible, compatible_number_of, compatible_word_of, compatible_number, compatible_word};

use crate::inner::suits;
use sheet::HIGHEST_HINT;
use sheet::refusal::Refusal;

#[tactic(auto, unfolding(crate::specs::Hints::compatible, crate::specs::Hints::compatible_number, crate::specs::Hints::compatible_word))]
pub fn is_compatible(hint: u8, kind: u64) -> Result<bool, Refusal>
    ensures answer { result ≡ compatible hint kind }
    ensures number { compatible_number_of result ≡ compatible_number hint }
    ensures word { compatible_word_of result ≡ compatible_word hint kind }
{
    if hint > HIGHEST_HINT {
        return Err(Refusal::Malformed);
    }
    Ok(suits(hint, kind))
}
