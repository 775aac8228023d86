// Calls on a region or a block that is lent by itself.
// Each call has an `out` of its own length. One function over a closure that takes it was tried: the prover does not cover
// a bound that names a const parameter.
use crate::Lent;
use cases::case::{WORDS, number, slice, words};
use cases::line::answered;
use phsarodil::block::phs_carve_freeblock;
use phsarodil::learned::phs_carve_unallocated;
use phsarodil::rows::{phs_scan_region, phs_try_parse_record};
use streams::Output;

pub(crate) fn try_parse_record(said: Output, case: &[u8], lent: &mut Lent) -> Output {
    let mut out = [0; 3];
    let answer = phs_try_parse_record(
        slice(case, 0),
        slice(case, 1),
        number(case, 0),
        number(case, 1) as usize,
        lent.rows,
        lent.cols,
        &mut out,
    );
    answered(said, answer, &out)
}

pub(crate) fn scan_region(said: Output, case: &[u8], lent: &mut Lent) -> Output {
    let mut out = [0; 3];
    let answer = phs_scan_region(
        slice(case, 0),
        slice(case, 1),
        number(case, 0),
        number(case, 1) as usize,
        lent.rows,
        lent.cols,
        &mut out,
    );
    answered(said, answer, &out)
}

pub(crate) fn carve_freeblock(said: Output, case: &[u8], lent: &mut Lent) -> Output {
    let mut out = [0; 1];
    let answer = phs_carve_freeblock(
        slice(case, 0),
        number(case, 0),
        number(case, 1) as usize,
        lent.rows,
        lent.cols,
        &mut out,
    );
    answered(said, answer, &out)
}

pub(crate) fn carve_unallocated(said: Output, case: &[u8], lent: &mut Lent) -> Output {
    let mut types = [0; WORDS];
    let n = words(slice(case, 1), &mut types);
    let mut out = [0; 1];
    let answer = phs_carve_unallocated(
        slice(case, 0),
        &types[..n],
        number(case, 0),
        lent.rows,
        lent.cols,
        &mut out,
    );
    answered(said, answer, &out)
}
