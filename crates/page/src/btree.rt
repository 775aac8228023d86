// A page by its number.
ghost use Rattle.std.specs.Prelude.{◌≡◌, length};
ghost use Rattle.page.specs.Page.{page_answer, paged_number, page_refusal};

use crate::inner::{head_of, size_fits};
use sheet::LARGEST_REGION;
use sheet::refusal::Refusal;

// Where a page lies in the database, and where its b-tree header stands in it.
#[derive(Clone, Copy, Debug, PartialEq, Eq)]
pub struct Page {
    pub start: usize,
    pub len: usize,
    pub head: usize,
}

pub fn get_page_data(db: &[u8], size: u64, page: u64) -> Result<Page, Refusal>
    ensures value { result ≡ page_answer (length db.now) size page }
    ensures number { paged_number result ≡ page_refusal (length db.now) size page }
{
    if db.len() > LARGEST_REGION {
        return Err(Refusal::TooLarge);
    }
    if !size_fits(size) {
        return Err(Refusal::PageSize);
    }
    let len = size as usize;
    if page == 0 || page > (db.len() / len) as u64 {
        return Err(Refusal::NoSuchPage);
    }
    Ok(Page {
        start: (page as usize - 1) * len,
        len,
        head: head_of(page),
    })
}
