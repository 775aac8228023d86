// Statements and pattern search: calls that fill one list.
ghost use Rattle.std.specs.Prelude.{◌≡◌};
ghost use Rattle.column.specs.declared.piece.Reading.TheVariants.{ByFormat};
ghost use Rattle.phsarodil.specs.Returns.{list_return, filled_list};
ghost use Rattle.readings.specs.Statement.{statement_filling as reading_filling};
ghost use Rattle.search.specs.Search.{search_filling};
ghost use Rattle.statement.specs.Statement.{statement_filling};

use readings::statement::column_hints;
use search::search::boyer_moore_search;
use sheet::answer::Answer;
use statement::statement::from_create_sql;

#[unsafe(no_mangle)]
pub extern "C" fn phs_column_hints(statement: &[u8], hints: &mut [u8], out: &mut [u64; 1]) -> u64
    ensures { list_return result out.new hints.new ≡ filled_list
        (reading_filling ByFormat statement.now hints.old) }
{
    let hinted = column_hints(statement, hints);
    *out = [hinted.written()];
    hinted.number()
}

#[unsafe(no_mangle)]
pub extern "C" fn phs_from_create_sql(statement: &[u8], hints: &mut [u8], out: &mut [u64; 1]) -> u64
    ensures { list_return result out.new hints.new ≡ filled_list
        (statement_filling statement.now hints.old) }
{
    let hinted = from_create_sql(statement, hints);
    *out = [hinted.written()];
    hinted.number()
}

#[unsafe(no_mangle)]
pub extern "C" fn phs_boyer_moore_search(
    haystack: &[u8],
    pattern: &[u8],
    places: &mut [u64],
    out: &mut [u64; 1],
) -> u64
    ensures { list_return result out.new places.new ≡ filled_list
        (search_filling haystack.now pattern.now places.old) }
{
    let searched = boyer_moore_search(haystack, pattern, places);
    *out = [searched.written()];
    searched.number()
}
