// The lines that are not of a row: each is written to the front of a lent buffer, and the answer is its length.
ghost use Rattle.digits.specs.Inner.{Put};
ghost use Rattle.listing.specs.Text.{heading, totals_line, refusal_line};
ghost use Rattle.io.specs.Counts.{IsPrefixLen};
ghost use Rattle.sheet.specs.Refusal.{refusal_number};

use crate::part::{TEXT_BYTES, Totals};
use digits::inner::Text;
use sheet::refusal::Refusal;

pub fn put_heading(out: &mut [u8; TEXT_BYTES]) -> usize
    ensures put { Put out.old 0 heading out.new result }
    ensures prefix_len { IsPrefixLen result out.new }
{
    let mut text = Text::new(out);
    text.put_bytes(b"offset consumed confidence types\n");
    text.len
}

pub fn put_totals(out: &mut [u8; TEXT_BYTES], total: Totals) -> usize
    ensures put { Put out.old 0 (totals_line total.rows total.read) out.new result }
    ensures prefix_len { IsPrefixLen result out.new }
{
    let mut text = Text::new(out);
    text.put_number_after(b"rows ", total.rows);
    text.put_number_after(b" read ", total.read);
    text.put_bytes(b"\n");
    text.len
}

pub fn put_refusal(out: &mut [u8; TEXT_BYTES], refusal: Refusal) -> usize
    ensures put { Put out.old 0 (refusal_line (refusal_number refusal)) out.new result }
    ensures prefix_len { IsPrefixLen result out.new }
{
    let mut text = Text::new(out);
    text.put_number_after(b"refused ", refusal.number());
    text.put_bytes(b"\n");
    text.len
}
