// Keywords, told by their first letter. Callers show by proof that a keyword has one.
ghost use Rattle.std.specs.Prelude.{◌≡◌, ◌<◌, length};
ghost use Rattle.words.specs.Words.{starts_with, equals, holds};

use crate::runs::{Run, long_run};
use crate::words::starts_with;

// As `starts_with`, told mostly by the first letter: a letter and its capital are 32 apart.
pub fn begins(s: &[u8], word: &[u8]) -> bool
    requires { 0 < length word.now }
    ensures { result ≡ starts_with word.now s.now }
{
    s.len() >= word.len() && s[0] % 32 == word[0] % 32 && starts_with(s, word)
}

pub fn is_word(s: &[u8], word: &[u8]) -> bool
    requires { 0 < length word.now }
    ensures { result ≡ equals word.now s.now }
{
    s.len() == word.len() && begins(s, word)
}

pub fn holds_word(s: &[u8], word: &[u8]) -> bool
    requires { 0 < length word.now }
    ensures { result ≡ holds word.now s.now }
{
    let mut i = 0;
    // A step goes on to the first letter's next place.
    while i < s.len() {
        i += long_run(&s[i..], Run::Unlike(word[0]));
        if starts_with(&s[i..], word) {
            return true;
        }
        i += 1;
    }
    false
}
