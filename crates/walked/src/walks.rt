// Calls that walk a database: over one table, or over tables whose roots and counts of columns are slices of words.
use crate::Lent;
use cases::case::{WORDS, number, slice, words};
use cases::line::{answered, say_bytes, say_list, say_rows};
use cases::lists::Cells;
use phsarodil::freeblocks::phs_recover_freeblocks;
use phsarodil::gaps::phs_scan_page_gaps;
use phsarodil::pages::phs_collect_leaf_pages;
use streams::Output;

// What a walk answers, and what it leaves in flags and stack.
fn say_walk(said: Output, answer: u64, out: &[u64; 1], lent: &Lent) -> Output {
    let said = say_bytes(answered(said, answer, out), b"flags", lent.flags);
    say_list(said, b"stack", Cells::Words, lent.stack)
}

// That of a walk which carves, and the rows.
fn say_carved(said: Output, answer: u64, out: &[u64; 1], lent: &Lent) -> Output {
    let said = say_walk(said, answer, out, lent);
    say_rows(said, lent.first, lent.second)
}

pub(crate) fn collect_leaf_pages(said: Output, case: &[u8], lent: &mut Lent) -> Output {
    let mut out = [0; 1];
    let answer = phs_collect_leaf_pages(
        slice(case, 0),
        number(case, 0),
        number(case, 1),
        lent.flags,
        lent.stack,
        lent.first,
        &mut out,
    );
    let said = say_walk(said, answer, &out, lent);
    say_list(said, b"leaves", Cells::Words, lent.first)
}

pub(crate) fn recover_freeblocks(said: Output, case: &[u8], lent: &mut Lent) -> Output {
    let mut roots = [0; WORDS];
    let tables = words(slice(case, 2), &mut roots);
    let mut counts = [0; WORDS];
    let widths = words(slice(case, 3), &mut counts);
    let mut out = [0; 1];
    let answer = phs_recover_freeblocks(
        slice(case, 0),
        number(case, 0),
        &roots[..tables],
        &counts[..widths],
        slice(case, 1),
        lent.flags,
        lent.stack,
        lent.first,
        lent.second,
        &mut out,
    );
    say_carved(said, answer, &out, lent)
}

pub(crate) fn scan_page_gaps(said: Output, case: &[u8], lent: &mut Lent) -> Output {
    let mut roots = [0; WORDS];
    let tables = words(slice(case, 2), &mut roots);
    let mut counts = [0; WORDS];
    let widths = words(slice(case, 3), &mut counts);
    let mut out = [0; 1];
    let answer = phs_scan_page_gaps(
        number(case, 0),
        slice(case, 0),
        number(case, 1),
        &roots[..tables],
        &counts[..widths],
        slice(case, 1),
        lent.flags,
        lent.stack,
        lent.first,
        lent.second,
        &mut out,
    );
    say_carved(said, answer, &out, lent)
}
