// The hint of a declared type. The tests stand row by row: a list of words would need a mark beside each for how it is met.
ghost use Rattle.std.specs.Prelude.{◌≡◌};
ghost use Rattle.column.specs.Column.{is_integer, is_text, is_real, is_blob, hint_of};

use sheet::hint::{ANY, BLOB, INTEGER, REAL, TEXT};
use words::inner::keywords::{begins, is_word};

fn is_integer(word: &[u8]) -> bool
    ensures { result ≡ is_integer word.now }
{
    begins(word, b"INT")
        || is_word(word, b"BOOLEAN")
        || is_word(word, b"TINYINT")
        || is_word(word, b"SMALLINT")
        || is_word(word, b"BIGINT")
        || is_word(word, b"MEDIUMINT")
}

fn is_text(word: &[u8]) -> bool
    ensures { result ≡ is_text word.now }
{
    begins(word, b"TEXT")
        || begins(word, b"CHAR")
        || begins(word, b"VARCHAR")
        || begins(word, b"NCHAR")
        || begins(word, b"NVARCHAR")
        || is_word(word, b"CLOB")
}

fn is_real(word: &[u8]) -> bool
    ensures { result ≡ is_real word.now }
{
    begins(word, b"REAL")
        || begins(word, b"FLOAT")
        || begins(word, b"DOUBLE")
        || begins(word, b"NUMERIC")
        || begins(word, b"DECIMAL")
}

fn is_blob(word: &[u8]) -> bool
    ensures { result ≡ is_blob word.now }
{
    begins(word, b"BLOB") || is_word(word, b"BINARY") || is_word(word, b"VARBINARY")
}

#[tactic(auto, unfolding(crate::specs::Column::hint_of))]
pub fn sql_type_to_hint(word: &[u8]) -> u8
    ensures { result ≡ hint_of word.now }
{
    if is_integer(word) {
        INTEGER
    } else if is_text(word) {
        TEXT
    } else if is_real(word) {
        REAL
    } else if is_blob(word) {
        BLOB
    } else {
        ANY
    }
}
