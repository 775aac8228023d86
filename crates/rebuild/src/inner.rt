// What stands at a start of a payload, for our own crates: callers show by proof that it lies there, and that the table is not too wide.
mod columns;

ghost use Rattle.std.specs.Prelude.{◌≡◌, ◌≤◌, length};
ghost use Rattle.rebuild.specs.Header.{one_byte_types, own_bytes, most_by};
ghost use Rattle.rebuild.specs.Inner.{short_by, RebuiltIs};
ghost use Rattle.rebuild.specs.declared.rebuilding.Rebuilding.TheVariants.{OneByte, Exact};
ghost use Rattle.sheet.specs.Limits.{largest_region, most_columns};

use crate::inner::columns::walk_columns;
use crate::rebuilding::{ONE_BYTE_TYPES, Rebuilding};
use attempt::inner::{Find, MOST_BYTES, Miss, given_header, judge};

// How many bytes a header's length has itself.
fn own_bytes(types: usize) -> usize
    ensures value { result ≡ own_bytes types }
    ensures small { result ≤ 2 }
{
    if types <= ONE_BYTE_TYPES { 1 } else { 2 }
}

// The bytes that are made up count among those that a row may take.
fn short_by(own: usize, verdict: Result<Find, Miss>) -> Option<Find>
    requires { own ≤ 2 }
    ensures { result ≡ short_by own verdict }
{
    let find = verdict.ok()?;
    if find.consumed > MOST_BYTES - own {
        None
    } else {
        Some(find)
    }
}

fn one_byte(payload: &[u8], hints: &[u8], v: usize) -> Option<Find>
    requires v_in_bounds { (v ≤ length payload.now) × (length payload.now ≤ largest_region) }
    requires hint_count_bound { (1 ≤ length hints.now) × (length hints.now ≤ one_byte_types) }
    ensures { RebuiltIs OneByte payload.now hints.now v result }
{
    let types = hints.len();
    if types > payload.len() - v {
        return None;
    }
    short_by(
        own_bytes(types),
        given_header(payload, hints, v, types, v, false),
    )
}

fn exact(payload: &[u8], hints: &[u8], v: usize) -> Option<Find>
    requires v_in_bounds { (v ≤ length payload.now) × (length payload.now ≤ largest_region) }
    requires hint_count_bound { (1 ≤ length hints.now) × (length hints.now ≤ most_columns) }
    ensures { RebuiltIs Exact payload.now hints.now v result }
{
    let walk = walk_columns(payload, hints, v)?;
    let types = walk.end - v;
    short_by(own_bytes(types), judge(payload, hints, v, types, v, walk))
}

// The row whose types begin at a start, if there is one.
pub fn rebuild(how: Rebuilding, payload: &[u8], hints: &[u8], v: usize) -> Option<Find>
    requires v_in_bounds { (v ≤ length payload.now) × (length payload.now ≤ largest_region) }
    requires hint_count_bound { (1 ≤ length hints.now) × (length hints.now ≤ most_by how) }
    ensures { RebuiltIs how payload.now hints.now v result }
{
    match how {
        Rebuilding::NoGuesses => None,
        Rebuilding::OneByte => one_byte(payload, hints, v),
        Rebuilding::Exact => exact(payload, hints, v),
    }
}
