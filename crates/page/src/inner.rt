// The numbers that stand on a page, for our own crates: callers show by proof that the bytes are there, but for those of the b-tree header.
ghost use Rattle.std.specs.Prelude.{◌≡◌, ◌+◌, ◌≤◌, ◌<◌, length, get_or};
ghost use Rattle.page.specs.Inner.{farthest};
ghost use Rattle.page.specs.Page.{size_fits, head_of, page_type, first_freeblock, cell_count, content_start, pointer_at, child_at};
ghost use Rattle.page.specs.Page.{block_next, block_size};
ghost use Rattle.record.specs.Value.{big_endian};

use record::inner::{big_endian, wide};

// A power of two from 512 to 65,536.
pub fn size_fits(size: u64) -> bool
    ensures { result ≡ size_fits size }
{
    matches!(
        size,
        512 | 1024 | 2048 | 4096 | 8192 | 16_384 | 32_768 | 65_536
    )
}

// On page 1 the database header stands before the b-tree header.
pub fn head_of(page: u64) -> usize
    ensures value { result ≡ head_of page }
    ensures low { result ≤ 100 }
{
    if page == 1 { 100 } else { 0 }
}

// A byte past the page's end counts as 0, and so it does in the numbers of the header.
fn byte(page: &[u8], at: usize) -> u64
    ensures value { result ≡ get_or page.now at 0 }
    ensures small { result < 256 }
{
    page.get(at).map_or(0, |b| wide(*b))
}

fn half(page: &[u8], at: usize) -> usize
    requires { at ≤ farthest }
    ensures value { result ≡ big_endian page.now at 2 }
    ensures small { result < 65536 }
{
    (byte(page, at) * 256 + byte(page, at + 1)) as usize
}

pub fn page_type(page: &[u8], head: usize) -> u64
    ensures { result ≡ page_type page.now head }
{
    byte(page, head)
}

pub fn first_freeblock(page: &[u8], head: usize) -> usize
    requires { head + 1 ≤ farthest }
    ensures value { result ≡ first_freeblock page.now head }
    ensures small { result < 65536 }
{
    half(page, head + 1)
}

pub fn cell_count(page: &[u8], head: usize) -> usize
    requires { head + 3 ≤ farthest }
    ensures value { result ≡ cell_count page.now head }
    ensures small { result < 65536 }
{
    half(page, head + 3)
}

pub fn content_start(page: &[u8], head: usize) -> usize
    requires { head + 5 ≤ farthest }
    ensures value { result ≡ content_start page.now head }
    ensures small { result < 65536 }
{
    half(page, head + 5)
}

// A cell's place, out of the pointer array.
pub fn pointer(page: &[u8], at: usize) -> usize
    requires { at + 2 ≤ length page.now }
    ensures value { result ≡ pointer_at page.now at }
    ensures small { result < 65536 }
{
    big_endian(page, at, 2) as usize
}

pub fn child(page: &[u8], at: usize) -> u64
    requires { at + 4 ≤ length page.now }
    ensures { result ≡ child_at page.now at }
{
    big_endian(page, at, 4)
}

pub fn block_next(page: &[u8], at: usize) -> usize
    requires { at + 4 ≤ length page.now }
    ensures value { result ≡ block_next page.now at }
    ensures small { result < 65536 }
{
    big_endian(page, at, 2) as usize
}

pub fn block_size(page: &[u8], at: usize) -> usize
    requires { at + 4 ≤ length page.now }
    ensures value { result ≡ block_size page.now at }
    ensures small { result < 65536 }
{
    big_endian(page, at + 2, 2) as usize
}
