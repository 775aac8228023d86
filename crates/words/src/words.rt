// Words between blanks, and the letters that they are compared by.
ghost use Rattle.std.specs.Prelude.{◌≡◌};
ghost use Rattle.words.specs.Inner.{WordEnds};
ghost use Rattle.words.specs.Words.{raise, trim, first_word, second_word, word_behind, starts_with};

use crate::runs::{Run, dropped, kept, leading};

pub fn trimmed(s: &[u8]) -> &[u8]
    ensures { result.now ≡ trim s.now }
{
    let from = dropped(s, Run::Blanks);
    &from[..kept(from, Run::Blanks)]
}

pub fn first_word(s: &[u8]) -> &[u8]
    ensures { result.now ≡ first_word s.now }
{
    let from = dropped(s, Run::Blanks);
    &from[..leading(from, Run::Word)]
}

pub fn second_word(s: &[u8]) -> &[u8]
    ensures { result.now ≡ second_word s.now }
{
    first_word(dropped(dropped(s, Run::Blanks), Run::Word))
}

// Where the first word ends.
fn word_end(s: &[u8]) -> usize
    ensures { WordEnds s.now result }
{
    let from = leading(s, Run::Blanks);
    from + leading(&s[from..], Run::Word)
}

// The word behind so many others.
pub fn word_behind(s: &[u8], words: usize) -> &[u8]
    ensures { result.now ≡ word_behind words s.now }
{
    let mut at = 0;
    for _ in 0..words {
        at += word_end(&s[at..]);
    }
    first_word(&s[at..])
}

#[tactic(auto, unfolding(crate::specs::Words::raise))]
pub fn raised(byte: u8) -> u8
    ensures { result ≡ raise byte }
{
    byte.to_ascii_uppercase()
}

pub fn starts_with(s: &[u8], word: &[u8]) -> bool
    ensures { result ≡ starts_with word.now s.now }
{
    s.len() >= word.len()
        && s.iter()
            .zip(word)
            .all(|(byte, letter)| raised(*byte) == *letter)
}
