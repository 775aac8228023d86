// Says what the calls answer that write rows and walk nothing, a line a case: `carved FILE`. oracle/README.md has the formats.
#![tactic(auto)]

mod regions;
mod spaces;

use cases::case::{CELLS, call};
use cases::files::say_cases;
use cases::line::say_rows;
use cases::lists::fill_words;
use streams::Output;

// The lists that a call is lent.
#[derive(Drop)]
struct Lent<'a> {
    rows: &'a mut [u64],
    cols: &'a mut [u64],
}

// What a call left in them.
fn say_lent(said: Output, lent: &Lent) -> Output {
    say_rows(said, lent.rows, lent.cols)
}

// The call by its number; an enum would name each of them once more, between its number and the function of its name.
fn carve(said: Output, case: &[u8], lent: &mut Lent) -> Output {
    let said = match call(case) {
        7 => regions::try_parse_record(said, case, lent),
        8 => regions::scan_region(said, case, lent),
        14 => spaces::recover_page_freeblocks(said, case, lent),
        15 => spaces::recover_slice_freeblocks(said, case, lent),
        17 => spaces::scan_page_gap(said, case, lent),
        18 => spaces::scan_single_page_gap(said, case, lent),
        19 => spaces::parse_cells_from_freeblock(said, case, lent),
        20 => regions::carve_freeblock(said, case, lent),
        22 => regions::carve_unallocated(said, case, lent),
        _ => return said.say(b"there is no such call here"),
    };
    say_lent(said, lent)
}

fn main(rt: HostRuntime) {
    // Lists as long as a case may ask: nothing is allocated.
    let mut rows = [0; CELLS];
    let mut cols = [0; CELLS];
    say_cases(rt, b"carved", |said, case| {
        let one = fill_words(&mut rows, case, 1);
        let two = fill_words(&mut cols, case, 2);
        let mut lent = Lent {
            rows: &mut rows[..one],
            cols: &mut cols[..two],
        };
        carve(said, case, &mut lent)
    });
}
