// The walk over the sites of a report: whether each fits, and the sum of their live bytes. `body` is all of a report before its tag.
ghost use Rattle.std.specs.Prelude.{◌≡◌, ◌≤◌, length};
ghost use Rattle.report.specs.Inside.{step_by, Stepped, counted_by, end_of, Walked};

use crate::format::{BESIDE_LABEL, HEAD, LONGEST_LABEL};
use crate::numbers::u64_at;
use algorithm::Refusal;

// One site: where the next one starts, and its live bytes.
#[derive(Clone, Copy)]
pub struct Step {
    pub next: usize,
    pub live: u64,
}

// The site that starts at a place.
fn pass_site(body: &[u8], at: usize) -> Result<Step, Refusal>
    requires { at ≤ length body.now }
    ensures { Stepped body.now at (step_by result) }
{
    // No length byte stands before the tag: 15.
    if body.len() <= at {
        return Err(Refusal::SitesMisplaced);
    }
    let size = body[at] as usize;
    // The label length is 0 or over 48: 14.
    if size < 1 || LONGEST_LABEL < size {
        return Err(Refusal::LabelLengthOutOfRange);
    }
    // The site runs into the tag: 15.
    if body.len() - at < size + BESIDE_LABEL {
        return Err(Refusal::SitesMisplaced);
    }
    Ok(Step {
        next: at + size + BESIDE_LABEL,
        live: u64_at(body, at + size + 1),
    })
}

// What the walk answers once it has passed every site: the sum, unless bytes are left before the tag or there is none.
fn end(left: bool, sum: Option<u64>) -> Result<u64, Refusal>
    ensures { counted_by result ≡ end_of left sum }
{
    if left {
        return Err(Refusal::SitesMisplaced);
    }
    sum.ok_or(Refusal::SumTooLarge)
}

pub(crate) fn walk_sites(body: &[u8], sites: u64) -> Result<u64, Refusal>
    requires { 45 ≤ length body.now }
    ensures { Walked body.now sites (counted_by result) }
{
    let mut at = HEAD;
    let mut sum = Some(0);
    for _ in 0..sites {
        let site = pass_site(body, at)?;
        at = site.next;
        sum = octets::plus(sum, site.live);
    }
    end(at < body.len(), sum)
}
