// The hints of the columns that a CREATE TABLE statement lists, in one of two readings, read where the statement lies.
ghost use Rattle.std.specs.Prelude.{◌≡◌, ◌+◌, ◌<◌, true, false, length, MatchOption};
ghost use Rattle.column.specs.declared.piece.Reading.TheVariants.{ByFormat};
ghost use Rattle.sheet.specs.Filled.{laid, list_outcome, FillsList};
ghost use Rattle.readings.specs.Statement.{between, unlisted, all_hints, statement_filling};
ghost use Rattle.words.specs.Words.{pieces};

use column::piece::{Reading, piece_hint};
use sheet::filled::Filled;
use sheet::hint::{ANY, hint_count_fits};
use sheet::refusal::Refusal;
use sheet::{LARGEST_STATEMENT, MOST_COLUMNS};
use words::inner::pieces::piece_end;
use words::runs::{Run, behind_first, kept};

// Writes as many hints as there is room for, and counts them all. No `split`, since that looks at each byte by itself, and commas are rare.
fn read_hints(reading: Reading, columns: &[u8], hints: &mut [u8]) -> usize
    ensures value { result ≡ length (all_hints reading (pieces columns.now)) }
    ensures list { hints.new ≡ laid (all_hints reading (pieces columns.now)) hints.old }
{
    let mut at = 0;
    let mut n = 0;
    while at <= columns.len() {
        let end = piece_end(columns, at);
        if let Some(hint) = piece_hint(reading, &columns[at..end]) {
            // A hint too many is only counted.
            if n < hints.len() {
                hints[n] = hint;
            }
            n += 1;
        }
        at = end + 1;
    }
    n
}

// What stands between the first `(` and the last `)`.
fn column_list(statement: &[u8]) -> Option<&[u8]>
    ensures { MatchOption result (unlisted statement.now ≡ true)
        (λ columns. (unlisted statement.now ≡ false) × (columns.now ≡ between statement.now)) }
{
    let rest = behind_first(statement, b'(');
    // Where there is no `(`, the rest is empty, so no `)` stands in it.
    let last = kept(rest, Run::Until(b')')).checked_sub(1)?;
    Some(&rest[..last])
}

// The call of either reading, which `column_hints` and the crate `statement` name.
pub fn read_statement(
    reading: Reading,
    statement: &[u8],
    hints: &mut [u8],
) -> Result<Filled, Refusal>
    ensures { FillsList (statement_filling reading statement.now hints.old)
        (list_outcome result hints.new) }
{
    if statement.len() > LARGEST_STATEMENT {
        return Err(Refusal::TooLarge);
    }
    let columns = column_list(statement).ok_or(Refusal::NoColumnList)?;
    let mut found = [ANY; MOST_COLUMNS];
    let count = read_hints(reading, columns, &mut found);
    if !hint_count_fits(count) {
        return Err(Refusal::ColumnCount);
    }
    let n = count.min(hints.len());
    hints[..n].copy_from_slice(&found[..n]);
    if n < count {
        Ok(Filled::Full(n))
    } else {
        Ok(Filled::Done(count))
    }
}

pub fn column_hints(statement: &[u8], hints: &mut [u8]) -> Result<Filled, Refusal>
    ensures { FillsList (statement_filling ByFormat statement.now hints.old)
        (list_outcome result hints.new) }
{
    read_statement(Reading::ByFormat, statement, hints)
}
