// Calls on the freed blocks and the free space of one page, or of one block.
// A function a call, since each lends its own numbers and slices in its own order: what is alike is `out` alone, and one function over a
// closure that takes it would be no shorter.
use crate::Lent;
use cases::case::{number, slice};
use cases::line::answered;
use phsarodil::freeblocks::{phs_recover_page_freeblocks, phs_recover_slice_freeblocks};
use phsarodil::gaps::{
    phs_parse_cells_from_freeblock, phs_scan_page_gap, phs_scan_single_page_gap,
};
use streams::Output;

pub(crate) fn recover_page_freeblocks(said: Output, case: &[u8], lent: &mut Lent) -> Output {
    let mut out = [0; 1];
    let answer = phs_recover_page_freeblocks(
        slice(case, 0),
        number(case, 0),
        number(case, 1),
        slice(case, 1),
        lent.rows,
        lent.cols,
        &mut out,
    );
    answered(said, answer, &out)
}

pub(crate) fn recover_slice_freeblocks(said: Output, case: &[u8], lent: &mut Lent) -> Output {
    let mut out = [0; 1];
    let answer = phs_recover_slice_freeblocks(
        slice(case, 0),
        number(case, 0) as usize,
        number(case, 1),
        slice(case, 1),
        lent.rows,
        lent.cols,
        &mut out,
    );
    answered(said, answer, &out)
}

pub(crate) fn scan_page_gap(said: Output, case: &[u8], lent: &mut Lent) -> Output {
    let mut out = [0; 1];
    let answer = phs_scan_page_gap(
        number(case, 0),
        slice(case, 0),
        number(case, 1),
        number(case, 2),
        slice(case, 1),
        lent.rows,
        lent.cols,
        &mut out,
    );
    answered(said, answer, &out)
}

pub(crate) fn scan_single_page_gap(said: Output, case: &[u8], lent: &mut Lent) -> Output {
    let mut out = [0; 1];
    let answer = phs_scan_single_page_gap(
        number(case, 0),
        slice(case, 0),
        number(case, 1) as usize,
        number(case, 2),
        slice(case, 1),
        lent.rows,
        lent.cols,
        &mut out,
    );
    answered(said, answer, &out)
}

pub(crate) fn parse_cells_from_freeblock(said: Output, case: &[u8], lent: &mut Lent) -> Output {
    let mut out = [0; 1];
    let answer = phs_parse_cells_from_freeblock(
        number(case, 0),
        slice(case, 0),
        number(case, 1),
        slice(case, 1),
        lent.rows,
        lent.cols,
        &mut out,
    );
    answered(said, answer, &out)
}
