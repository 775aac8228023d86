// The leaves of one table.
ghost use Rattle.std.specs.Prelude.{◌≡◌, ◌/◌, ◌≤◌, length};
ghost use Rattle.sheet.specs.Refusal.{first_held};
ghost use Rattle.walk.specs.Inner.{Collected};
ghost use Rattle.walk.specs.Collect.{end_number, end_written, walk_checks, leaves_asked, leaves_outcome, CollectsLeaves};
ghost use Rattle.walk.specs.Walk.{walk};

use crate::inner::{Overflow, Stack, begin, next_leaf};
use page::inner::size_fits;
use sheet::LARGEST_REGION;
use sheet::answer::Answer;
use sheet::refusal::Refusal;

// What is written while walking: leaves, or rows out of them. No `Result`: refusals 8 and 9 say beside them how many are written, as
// `collect_written` promises.
#[derive(Clone, Copy, Debug, PartialEq, Eq)]
pub enum Walked {
    // All of it: how many.
    Done(usize),
    // There is one more than the lists hold: how many are written.
    Full(usize),
    // There were too few flags, or the stack overflowed: how many were written before.
    Short(usize),
}

impl Answer for Walked {
    ghost number_of = { end_number };

    ghost written_of = { end_written };

    fn number(self) -> u64 {
        match self {
            Walked::Done(_) => 0,
            Walked::Full(_) => Refusal::NoRoom.number(),
            Walked::Short(_) => Refusal::WalkSpace.number(),
        }
    }

    fn written(self) -> u64 {
        match self {
            Walked::Done(n) | Walked::Full(n) | Walked::Short(n) => n as u64,
        }
    }
}

// The checks before a walk, in rising order of their numbers.
fn check(len: usize, size: u64) -> Result<(), Refusal>
    ensures { result ≡ first_held (walk_checks len size) }
{
    if len > LARGEST_REGION {
        Err(Refusal::TooLarge)
    } else if !size_fits(size) {
        Err(Refusal::PageSize)
    } else {
        Ok(())
    }
}

fn collect(
    db: &[u8],
    size: usize,
    root: u64,
    flags: &mut [u8],
    stack: &mut [u64],
    leaves: &mut [u64],
) -> Walked
    requires le_size { 512 ≤ size }
    requires size_bound { size ≤ 65536 }
    ensures { Collected (length db.now / size) (length flags.old)
        (walk db.now size (length stack.old) root) leaves.old result leaves.new }
{
    if flags.len() < db.len() / size {
        return Walked::Short(0);
    }
    let mut stack = Stack::new(stack);
    if let Err(Overflow) = begin(root, flags, &mut stack) {
        return Walked::Short(0);
    }
    let mut n = 0;
    loop {
        match next_leaf(db, size, flags, &mut stack) {
            Ok(Some(page)) => {
                if n >= leaves.len() {
                    return Walked::Full(n);
                }
                leaves[n] = page;
                n += 1;
            }
            Ok(None) => {
                return Walked::Done(n);
            }
            Err(Overflow) => {
                return Walked::Short(n);
            }
        }
    }
}

// The leaves in the order in which the walk pops them. Flags and stack may hold anything before.
pub fn collect_leaf_pages(
    db: &[u8],
    size: u64,
    root: u64,
    flags: &mut [u8],
    stack: &mut [u64],
    leaves: &mut [u64],
) -> Result<Walked, Refusal>
    ensures { CollectsLeaves
        (leaves_asked db.now size root flags.old stack.old leaves.old)
        (leaves_outcome result flags.new stack.new leaves.new) }
{
    check(db.len(), size)?;
    let answer = collect(db, size as usize, root, flags, stack, leaves);
    flags.fill(0);
    stack.fill(0);
    Ok(answer)
}
