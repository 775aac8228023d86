// Says what the calls answer that write no rows and walk nothing, a line a case: `answers FILE`. oracle/README.md has the formats.
#![tactic(auto)]

mod lists;
mod values;

use cases::case::{CELLS, call};
use cases::files::say_cases;
use cases::lists::{fill_bytes, fill_words};
use streams::Output;

// The call by its number, with the list that it is lent: of bytes or of words. An enum would name each call once more,
// between its number and the function of its name.
fn answer(said: Output, case: &[u8], bytes: &mut [u8], words: &mut [u64]) -> Output {
    match call(case) {
        1 => values::read_varint(said, case),
        2 => values::body_length(said, case),
        3 => values::decode_serial_type(said, case),
        4 => values::read_entry(said, case),
        5 => values::view_entry(said, case),
        6 => values::is_compatible(said, case),
        9 => lists::from_create_sql(said, case, bytes),
        10 => lists::boyer_moore_search(said, case, words),
        11 => values::get_page_data(said, case),
        21 => lists::learn_signatures(said, case, words),
        23 => lists::column_hints(said, case, bytes),
        _ => said.say(b"there is no such call here"),
    }
}

fn main(rt: HostRuntime) {
    // Lists as long as a case may ask: nothing is allocated.
    let mut bytes = [0; CELLS];
    let mut words = [0; CELLS];
    say_cases(rt, b"answers", |said, case| {
        let one = fill_bytes(&mut bytes, case, 0);
        let two = fill_words(&mut words, case, 1);
        answer(said, case, &mut bytes[..one], &mut words[..two])
    });
}
