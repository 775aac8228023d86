// Steps of the walk in lent memory, for our own crates: a stack of page numbers, and a flag for each page. Carvers carve between two steps.
pub mod checks;

ghost use Rattle.std.specs.Prelude.{◌≡◌, [], ◌∷◌, ◌+◌, ◌/◌, ◌≤◌, length, replicate, take};
ghost use Rattle.walk.specs.Inner.{Inside, Keeps, held, depth_of, TakenOff, pushed_as, stepped_as, NextSays};
ghost use Rattle.walk.specs.Walk.{child_in, cells_from, push_all, page_done, popped, marked};

use page::inner::{cell_count, child, head_of, page_type, pointer};

// The stack has no cell left for a page.
#[derive(Clone, Copy, Debug, PartialEq, Eq)]
pub struct Overflow;

// Page numbers that are still to be popped, in the first `top` cells of a lent list.
#[derive(Drop)]
pub struct Stack<'a> {
    pub pages: &'a mut [u64],
    pub top: usize,
}

impl<'a> Stack<'a> {
    // With no page on it, whatever the list holds.
    pub fn new(pages: &'a mut [u64]) -> Self
        ensures same { result.pages.ghost_name ≡ pages.entry.ghost_name }
        ensures cells { result.pages.now ≡ pages.old }
        ensures empty { result.top ≡ 0 }
    {
        Stack { pages, top: 0 }
    }

    fn push(&mut self, page: u64) -> Result<(), Overflow>
        requires { Inside self.old }
        ensures kept { Keeps self.old self.new }
        ensures result_after { pushed_as self.new result ≡ push_all (depth_of self.old) (page ∷ []) (held self.old) }
    {
        if self.top >= self.pages.len() {
            return Err(Overflow);
        }
        self.pages[self.top] = page;
        self.top += 1;
        Ok(())
    }

    fn pop(&mut self) -> Option<u64>
        requires { Inside self.old }
        ensures kept { Keeps self.old self.new }
        ensures result_after { TakenOff self.old result self.new }
    {
        if self.top == 0 {
            return None;
        }
        self.top -= 1;
        Some(self.pages[self.top])
    }
}

// Of the file format's page types those of a table; any other byte may stand there, and is neither.
const LEAF: u64 = 0x0D;

const INTERIOR: u64 = 0x05;

// Pushes the page number at a place of a page; past its end there is none.
fn push_child(page: &[u8], at: usize, stack: &mut Stack<'_>) -> Result<(), Overflow>
    requires at_bound { at ≤ 131072 }
    requires inside { Inside stack.old }
    ensures kept { Keeps stack.old stack.new }
    ensures result_after { pushed_as stack.new result ≡ push_all (depth_of stack.old) (child_in page.now at) (held stack.old) }
{
    if at + 4 > page.len() {
        return Ok(());
    }
    stack.push(child(page, at))
}

// Pushes the children of so many cells, whose pointers stand from a place on.
fn push_cells(page: &[u8], from: usize, count: usize, stack: &mut Stack<'_>) -> Result<(), Overflow>
    requires page_len_bound { length page.now ≤ 65536 }
    requires from_bound { from ≤ 65536 }
    requires inside { Inside stack.old }
    ensures kept { Keeps stack.old stack.new }
    ensures result_after { pushed_as stack.new result ≡ push_all (depth_of stack.old) (cells_from count page.now from) (held stack.old) }
{
    for k in 0..count {
        let at = from + 2 * k;
        if at + 2 > page.len() {
            break;
        }
        push_child(page, pointer(page, at), stack)?;
    }
    Ok(())
}

// A page that is looked at for the first time: its children are pushed. Whether it is a leaf.
fn expand(page: &[u8], head: usize, stack: &mut Stack<'_>) -> Result<bool, Overflow>
    requires page_len_bound { length page.now ≤ 65536 }
    requires head_bound { head ≤ 100 }
    requires inside { Inside stack.old }
    ensures kept { Keeps stack.old stack.new }
    ensures result_after { stepped_as stack.new result ≡ page_done (depth_of stack.old) page.now head (held stack.old) }
{
    match page_type(page, head) {
        LEAF => Ok(true),
        INTERIOR => {
            push_child(page, head + 8, stack)?;
            push_cells(page, head + 12, cell_count(page, head), stack)?;
            Ok(false)
        }
        _ => Ok(false),
    }
}

// A page number that was popped: whether it is that of a leaf, which was not there before.
fn visit(
    db: &[u8],
    size: usize,
    p: u64,
    flags: &mut [u8],
    stack: &mut Stack<'_>,
) -> Result<bool, Overflow>
    requires le_size { 512 ≤ size }
    requires size_bound { size ≤ 65536 }
    requires flag_for_each_page { length db.now / size ≤ length flags.old }
    requires inside { Inside stack.old }
    ensures kept { Keeps stack.old stack.new }
    ensures result_after { stepped_as stack.new result ≡ popped db.now size (depth_of stack.old)
        (take (length db.now / size) flags.old) p (held stack.old) }
    ensures flags { take (length db.now / size) flags.new ≡ marked (length db.now) size
        (take (length db.now / size) flags.old) p }
{
    if p == 0 || p > (db.len() / size) as u64 {
        return Ok(false);
    }
    let i = p as usize - 1;
    if flags[i] != 0 {
        return Ok(false);
    }
    flags[i] = 1;
    let start = i * size;
    let end = start + size;
    expand(&db[start..end], head_of(p), stack)
}

// Pops pages until one is a leaf; none if no leaf is left.
pub fn next_leaf(
    db: &[u8],
    size: usize,
    flags: &mut [u8],
    stack: &mut Stack<'_>,
) -> Result<Option<u64>, Overflow>
    requires le_size { 512 ≤ size }
    requires size_bound { size ≤ 65536 }
    requires flag_for_each_page { length db.now / size ≤ length flags.old }
    requires inside { Inside stack.old }
    ensures kept { Keeps stack.old stack.new }
    ensures next { NextSays db.now size flags.old stack.old flags.new stack.new result }
{
    while let Some(page) = stack.pop() {
        if visit(db, size, page, flags, stack)? {
            return Ok(Some(page));
        }
    }
    Ok(None)
}

// A table's walk begins: no page is flagged, and only the root is on the stack.
pub fn begin(root: u64, flags: &mut [u8], stack: &mut Stack<'_>) -> Result<(), Overflow>
    ensures kept { Keeps stack.old stack.new }
    ensures result_after { pushed_as stack.new result ≡ push_all (depth_of stack.old) (root ∷ []) [] }
    ensures flags { flags.new ≡ replicate (length flags.old) 0 }
{
    flags.fill(0);
    stack.top = 0;
    stack.push(root)
}
