// Says what the calls answer that walk a database, a line a case: `walked FILE`. oracle/README.md has the formats.
#![tactic(auto)]

mod walks;

use cases::case::{CELLS, call};
use cases::files::say_cases;
use cases::lists::{fill_bytes, fill_words};
use streams::Output;

// The lists that a call is lent: two to walk with, and one or two that it fills.
#[derive(Drop)]
struct Lent<'a> {
    flags: &'a mut [u8],
    stack: &'a mut [u64],
    first: &'a mut [u64],
    second: &'a mut [u64],
}

// The call by its number; an enum would name each of them once more, between its number and the function of its name.
fn walk(said: Output, case: &[u8], lent: &mut Lent) -> Output {
    match call(case) {
        12 => walks::collect_leaf_pages(said, case, lent),
        13 => walks::recover_freeblocks(said, case, lent),
        16 => walks::scan_page_gaps(said, case, lent),
        _ => said.say(b"there is no such call here"),
    }
}

fn main(rt: HostRuntime) {
    // Lists as long as a case may ask: nothing is allocated.
    let mut flags = [0; CELLS];
    let mut stack = [0; CELLS];
    let mut first = [0; CELLS];
    let mut second = [0; CELLS];
    say_cases(rt, b"walked", |said, case| {
        let pages = fill_bytes(&mut flags, case, 0);
        let depth = fill_words(&mut stack, case, 1);
        let one = fill_words(&mut first, case, 2);
        let two = fill_words(&mut second, case, 3);
        let mut lent = Lent {
            flags: &mut flags[..pages],
            stack: &mut stack[..depth],
            first: &mut first[..one],
            second: &mut second[..two],
        };
        walk(said, case, &mut lent)
    });
}
