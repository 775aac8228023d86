// Pages of a database, and the leaves of its tables.
ghost use Rattle.std.specs.Prelude.{◌≡◌, length};
ghost use Rattle.page.specs.Page.{page_answer, paged_number};
ghost use Rattle.phsarodil.specs.Door.{paged_words};
ghost use Rattle.phsarodil.specs.Returns.{leaves_return, collected_leaves};
ghost use Rattle.walk.specs.Collect.{leaves_asked};

use page::btree::get_page_data;
use sheet::answer::Answer;
use walk::walk::collect_leaf_pages;

#[unsafe(no_mangle)]
pub extern "C" fn phs_get_page_data(db: &[u8], size: u64, page: u64, out: &mut [u64; 3]) -> u64
    ensures number { result ≡ paged_number (page_answer (length db.now) size page) }
    ensures out { out.new ≡ paged_words (page_answer (length db.now) size page) }
{
    match get_page_data(db, size, page) {
        Ok(page) => {
            *out = [page.start as u64, page.len as u64, page.head as u64];
            0
        }
        Err(refusal) => {
            *out = [0, 0, 0];
            refusal.number()
        }
    }
}

#[unsafe(no_mangle)]
pub extern "C" fn phs_collect_leaf_pages(
    db: &[u8],
    size: u64,
    root: u64,
    flags: &mut [u8],
    stack: &mut [u64],
    leaves: &mut [u64],
    out: &mut [u64; 1],
) -> u64
    ensures { leaves_return result out.new flags.new stack.new leaves.new ≡ collected_leaves
        (leaves_asked db.now size root flags.old stack.old leaves.old) }
{
    let walked = collect_leaf_pages(db, size, root, flags, stack, leaves);
    *out = [walked.written()];
    walked.number()
}
