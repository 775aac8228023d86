// Calls that fill a list of hints, places or types.
// A function a call, since each lends its own numbers and slices in its own order: what is alike is `out` alone, and one function over a
// closure that takes it would be no shorter.
use cases::case::{WORDS, number, slice, words};
use cases::line::{answered, say_bytes, say_list};
use cases::lists::Cells;
use phsarodil::learned::phs_learn_signatures;
use phsarodil::lists::{phs_boyer_moore_search, phs_column_hints, phs_from_create_sql};
use streams::Output;

pub(crate) fn from_create_sql(said: Output, case: &[u8], hints: &mut [u8]) -> Output {
    let mut out = [0; 1];
    let answer = phs_from_create_sql(slice(case, 0), hints, &mut out);
    say_bytes(answered(said, answer, &out), b"hints", hints)
}

pub(crate) fn column_hints(said: Output, case: &[u8], hints: &mut [u8]) -> Output {
    let mut out = [0; 1];
    let answer = phs_column_hints(slice(case, 0), hints, &mut out);
    say_bytes(answered(said, answer, &out), b"hints", hints)
}

pub(crate) fn boyer_moore_search(said: Output, case: &[u8], places: &mut [u64]) -> Output {
    let mut out = [0; 1];
    let answer = phs_boyer_moore_search(slice(case, 0), slice(case, 1), places, &mut out);
    let said = answered(said, answer, &out);
    say_list(said, b"places", Cells::Words, places)
}

pub(crate) fn learn_signatures(said: Output, case: &[u8], types: &mut [u64]) -> Output {
    let mut entries = [0; WORDS];
    let n = words(slice(case, 1), &mut entries);
    let mut out = [0; 1];
    let answer = phs_learn_signatures(
        slice(case, 0),
        number(case, 0) as usize,
        &entries[..n],
        types,
        &mut out,
    );
    say_list(answered(said, answer, &out), b"types", Cells::Words, types)
}
