// All places of a pattern in a region, found by a window that goes on by the shift of its last byte (Boyer and Moore's search).
ghost use Rattle.std.specs.Prelude.{◌≡◌, ◌+◌, ◌-◌, ◌≤◌, ◌<◌, length, get_or};
ghost use Rattle.search.specs.Inner.{SameFrom, Tells, Entered, AtMost, Windows, Skips, Ends};
ghost use Rattle.sheet.specs.Filled.{filled_by, laid, list_outcome, FillsList};
ghost use Rattle.sheet.specs.Limits.{largest_region};
ghost use Rattle.search.specs.Search.{stands_at, places_of, search_filling};

use sheet::LARGEST_REGION;
use sheet::filled::Filled;
use sheet::refusal::Refusal;
use std::mem::replace;

// For each byte that a window may end with: how far on the pattern holds it there, too.
fn shifts(pattern: &[u8]) -> [usize; 256]
    requires { 0 < length pattern.now }
    ensures { Entered pattern.now (length pattern.now - 1) result }
{
    let last = pattern.len() - 1;
    let mut table = [pattern.len(); 256];
    // The last byte is left out, since its shift would be 0.
    for (i, byte) in pattern[..last].iter().enumerate() {
        table[*byte as usize] = last - i;
    }
    table
}

// Whether 16 bytes are the same, all of them compared: a test for all at once is cheap.
fn all_same(haystack: &[u8], pattern: &[u8], at: usize, from: usize) -> bool
    requires pattern_in_bounds { at + length pattern.now ≤ length haystack.now }
    requires from_in_bounds { from + 16 ≤ length pattern.now }
    ensures { Tells haystack.now pattern.now at from (from + 16) result }
{
    let mut same = true;
    for k in from..from + 16 {
        same &= haystack[at + k] == pattern[k];
    }
    same
}

// Whether the bytes before an offset are the same, too.
fn same_before(haystack: &[u8], pattern: &[u8], at: usize, before: usize) -> bool
    requires pattern_in_bounds { at + length pattern.now ≤ length haystack.now }
    requires before_in_bounds { before ≤ length pattern.now }
    requires same_from { SameFrom haystack.now pattern.now at before }
    ensures { result ≡ stands_at haystack.now pattern.now at }
{
    for j in (0..before).rev() {
        if haystack[at + j] != pattern[j] {
            return false;
        }
    }
    true
}

fn stands(haystack: &[u8], pattern: &[u8], at: usize) -> bool
    requires { at + length pattern.now ≤ length haystack.now }
    ensures { result ≡ stands_at haystack.now pattern.now at }
{
    let mut j = pattern.len();
    while j >= 16 {
        j -= 16;
        if !all_same(haystack, pattern, at, j) {
            return false;
        }
    }
    same_before(haystack, pattern, at, j)
}

fn shifted(haystack: &[u8], table: &[usize; 256], i: usize) -> usize
    requires i_in_bounds { i < length haystack.now }
    requires at_most { AtMost (length haystack.now) table.now }
    ensures value { result ≡ i + get_or table.now (get_or haystack.now i 0) 0 }
    ensures byte { get_or haystack.now i 0 < 256 }
{
    i + table[haystack[i] as usize]
}

// Three windows at a turn, as long as none of them can end behind the haystack: one that is to stay is moved by 0.
fn leap(haystack: &[u8], pattern: &[u8], table: &[usize; 256], from: usize) -> usize
    requires { Windows haystack.now pattern.now table.now from }
    ensures { Skips haystack.now pattern.now from result }
{
    let reach = 3 * pattern.len();
    let end = pattern[pattern.len() - 1];
    let mut i = from;
    while i + reach < haystack.len() {
        i = shifted(haystack, table, i);
        i = shifted(haystack, table, i);
        i = shifted(haystack, table, i);
        if haystack[i] == end {
            return i;
        }
    }
    i
}

// Where a window next ends with the pattern's last byte, or behind the haystack.
fn next_end(haystack: &[u8], pattern: &[u8], table: &[usize; 256], from: usize) -> usize
    requires { Windows haystack.now pattern.now table.now from }
    ensures skips { Skips haystack.now pattern.now from result }
    ensures ends { Ends haystack.now pattern.now result }
{
    let end = pattern[pattern.len() - 1];
    let mut i = leap(haystack, pattern, table, from);
    while i < haystack.len() {
        if haystack[i] == end {
            return i;
        }
        i = shifted(haystack, table, i);
    }
    i
}

fn slide(haystack: &[u8], pattern: &[u8], places: &mut [u64]) -> Filled
    requires pattern_nonzero { 0 < length pattern.now }
    requires pattern_in_bounds { length pattern.now ≤ length haystack.now }
    requires haystack_len_bound { length haystack.now ≤ largest_region }
    ensures value { result ≡ filled_by (length (places_of haystack.now pattern.now)) (length places.old) }
    ensures places_after { places.new ≡ laid (places_of haystack.now pattern.now) places.old }
{
    let last = pattern.len() - 1;
    let mut table = shifts(pattern);
    // A window that ends with the last byte stays where it is, to be looked at, and then goes on so far.
    let on = replace(&mut table[pattern[last] as usize], 0);
    let mut n = 0;
    // Where the window ends.
    let mut i = next_end(haystack, pattern, &table, last);
    while i < haystack.len() {
        let at = i - last;
        if stands(haystack, pattern, at) {
            if n == places.len() {
                return Filled::Full(n);
            }
            places[n] = at as u64;
            n += 1;
        }
        i = next_end(haystack, pattern, &table, i + on);
    }
    Filled::Done(n)
}

pub fn boyer_moore_search(
    haystack: &[u8],
    pattern: &[u8],
    places: &mut [u64],
) -> Result<Filled, Refusal>
    ensures { FillsList (search_filling haystack.now pattern.now places.old)
        (list_outcome result places.new) }
{
    if haystack.len() > LARGEST_REGION {
        return Err(Refusal::TooLarge);
    }
    // An empty pattern has no place; a pattern that is longer than the haystack would cost a table and find nothing.
    if pattern.is_empty() || pattern.len() > haystack.len() {
        return Ok(Filled::Done(0));
    }
    Ok(slide(haystack, pattern, places))
}
