// Calls that are lent no list.
// Each call has an `out` of its own length. One function over a closure that takes it was tried: the prover does not cover
// a bound that names a const parameter.
use cases::case::{number, slice};
use cases::line::answered;
use phsarodil::pages::phs_get_page_data;
use phsarodil::rows::phs_is_compatible;
use phsarodil::values::{
    phs_body_length, phs_decode_serial_type, phs_read_entry, phs_read_varint, phs_view_entry,
};
use streams::Output;

pub(crate) fn read_varint(said: Output, case: &[u8]) -> Output {
    let mut out = [0; 4];
    let answer = phs_read_varint(slice(case, 0), number(case, 0) as usize, &mut out);
    answered(said, answer, &out)
}

pub(crate) fn body_length(said: Output, case: &[u8]) -> Output {
    let mut out = [0; 2];
    let answer = phs_body_length(number(case, 0), &mut out);
    answered(said, answer, &out)
}

pub(crate) fn decode_serial_type(said: Output, case: &[u8]) -> Output {
    let mut out = [0; 4];
    let answer = phs_decode_serial_type(
        number(case, 0),
        slice(case, 0),
        number(case, 1) as usize,
        &mut out,
    );
    answered(said, answer, &out)
}

pub(crate) fn read_entry(said: Output, case: &[u8]) -> Output {
    let mut out = [0; 4];
    let answer = phs_read_entry(
        number(case, 0),
        number(case, 1),
        number(case, 2),
        number(case, 3),
        slice(case, 0),
        &mut out,
    );
    answered(said, answer, &out)
}

pub(crate) fn view_entry(said: Output, case: &[u8]) -> Output {
    let mut out = [0; 2];
    let answer = phs_view_entry(
        number(case, 0),
        number(case, 1),
        number(case, 2),
        number(case, 3),
        slice(case, 0),
        &mut out,
    );
    answered(said, answer, &out)
}

pub(crate) fn is_compatible(said: Output, case: &[u8]) -> Output {
    let mut out = [0; 1];
    let answer = phs_is_compatible((number(case, 0) % 256) as u8, number(case, 1), &mut out);
    answered(said, answer, &out)
}

pub(crate) fn get_page_data(said: Output, case: &[u8]) -> Output {
    let mut out = [0; 3];
    let answer = phs_get_page_data(slice(case, 0), number(case, 0), number(case, 1), &mut out);
    answered(said, answer, &out)
}
