// Lists the rows of a region on standard input: two bytes say how many hints there are, then come their codes, then the region.
#![tactic(auto)]

ghost use Rattle.std.specs.Prelude.{◌≡◌, ◌+◌, ◌≤◌, length};
ghost use Rattle.listing.specs.Input.{largest_input, hints_of, region_of, Taken};
ghost use Rattle.listing.specs.Part.{totals_of, parts_of};
ghost use Rattle.sheet.specs.Limits.{most_columns};

use listing::input::{COUNT_BYTES, LARGEST_INPUT, count_of, judge};
use listing::part::{Totals, col_space, list_part, row_space, text_space};
use listing::text::{put_heading, put_refusal, put_totals};
use sheet::answer::Answer;
use sheet::filled::Filled;
use sheet::refusal::Refusal;
use streams::{Output, fail, has_word, read_whole, say_aside};

// One byte more than is taken, which tells a longer input.
const INPUT_SPACE: usize = LARGEST_INPUT + 1;

// Nothing is allocated, so the spaces are as long as what they hold may be.
fn input_space() -> [u8; INPUT_SPACE]
    ensures { largest_input + 1 ≡ length result }
{
    [0; INPUT_SPACE]
}

fn say_heading(out: Output) -> Output {
    let mut text = text_space();
    let n = put_heading(&mut text);
    out.say(&text[..n])
}

fn say_totals(out: Output, total: Totals) -> Output {
    let mut text = text_space();
    let n = put_totals(&mut text, total);
    out.say(&text[..n])
}

fn say_reads(rt: HostRuntime) {
    say_aside(
        rt,
        b" reads from standard input: how many columns, in two bytes, high byte first; a hint code for each; ",
    );
    say_aside(rt, b"and the region; 65,536 bytes in all at the most\n");
}

// What the number means here; `judge` gives these three.
fn say_meaning(rt: HostRuntime, refusal: Refusal) {
    match refusal {
        Refusal::ColumnCount => say_aside(
            rt,
            b"carvelist: refusal 1: the first two bytes are no count of columns from 1 to 510; it",
        ),
        Refusal::Malformed => say_aside(
            rt,
            b"carvelist: refusal 2: behind the count a hint code is missing, or above 5; it",
        ),
        _ => say_aside(
            rt,
            b"carvelist: refusal 3: there are more than 65,536 bytes; it",
        ),
    }
    say_reads(rt);
}

fn say_refusal(rt: HostRuntime, out: Output, refusal: Refusal) -> Output {
    say_meaning(rt, refusal);
    let mut text = text_space();
    let n = put_refusal(&mut text, refusal);
    out.say(&text[..n])
}

#[derive(Clone, Copy)]
struct Listed {
    out: Output,
    total: Totals,
}

// Says the region's rows, part by part; a part has as many as the lists hold.
fn say_parts(out: Output, region: &[u8], hints: &[u8]) -> Listed
    requires { (length region.now ≤ largest_input) × (length hints.now ≤ most_columns) }
    ensures { result.total ≡ totals_of (parts_of region.now hints.now) }
{
    let mut out = out;
    let mut total = Totals { rows: 0, read: 0 };
    let mut rows = row_space();
    let mut cols = col_space();
    let mut text = text_space();
    let mut at = 0;
    while let Ok(part) = list_part(region, hints, at, &mut rows, &mut cols, &mut text) {
        let len = part.len;
        out = out.say(&text[..len]);
        total.rows += part.found.written();
        total.read += part.found.read as u64;
        match part.found.rows {
            Filled::Done(_) => break,
            Filled::Full(_) => at = part.found.place,
        }
    }
    Listed { out, total }
}

fn say_list(out: Output, region: &[u8], hints: &[u8]) -> Output
    requires { (length region.now ≤ largest_input) × (length hints.now ≤ most_columns) }
{
    let listed = say_parts(say_heading(out), region, hints);
    say_totals(listed.out, listed.total)
}

fn hints_of(input: &[u8]) -> &[u8]
    requires { Taken input.now }
    ensures { result.now ≡ hints_of input.now }
{
    let end = COUNT_BYTES + count_of(input);
    &input[COUNT_BYTES..end]
}

fn region_of(input: &[u8]) -> &[u8]
    requires { Taken input.now }
    ensures { result.now ≡ region_of input.now }
{
    let start = COUNT_BYTES + count_of(input);
    &input[start..]
}

fn say_answer(rt: HostRuntime, out: Output, input: &[u8]) -> Output {
    match judge(input) {
        Ok(()) => say_list(out, region_of(input), hints_of(input)),
        Err(refusal) => say_refusal(rt, out, refusal),
    }
}

fn say_usage(rt: HostRuntime) {
    say_aside(rt, b"carvelist: takes no words, and");
    say_reads(rt);
}

fn answer(rt: HostRuntime, input: &[u8]) {
    say_answer(rt, Output::new(rt), input).end(b"carvelist: standard output");
}

fn main(rt: HostRuntime) {
    if has_word(&rt, 1) {
        say_usage(rt);
        return;
    }
    let mut space = input_space();
    match read_whole(&rt, &mut rt.stdin(), &mut space) {
        Ok(n) => answer(rt, &space[..n]),
        Err(error) => fail(rt, b"carvelist: standard input", error),
    }
}
