// The site at a place, counted from 0.
ghost use Rattle.std.specs.Prelude.{◌≡◌, Ok};
ghost use Rattle.algorithm.specs.Answers.{number};
ghost use Rattle.report.specs.Calls.{site_by, found_site, SiteOutcome, label_by, LabelOutcome};
ghost use Rattle.report.specs.Inside.{body_sites, Standing, StartIs};

use crate::checks::check_report;
use crate::format::{BESIDE_LABEL, HEAD};
use crate::numbers::{u32_at, u64_at};
use algorithm::Refusal;

// A site: where its label starts in the report, how long the label is, live bytes and live blocks.
#[derive(Clone, Copy, Default)]
pub struct SiteAt {
    pub start: usize,
    pub length: usize,
    pub live: u64,
    pub blocks: u32,
}

// Where the site at a place starts. Here and below, `body` is all of a report before its tag.
fn start_of(body: &[u8], place: u64) -> usize
    requires { Standing body.now place }
    ensures { StartIs body.now place result }
{
    let mut at = HEAD;
    for _ in 0..place {
        at = at + body[at] as usize + BESIDE_LABEL;
    }
    at
}

// The site at a place that there is.
fn found(body: &[u8], place: u64) -> SiteAt
    requires { Standing body.now place }
    ensures { site_by (Ok result) ≡ found_site (body_sites body.now).1 place }
{
    let at = start_of(body, place);
    let size = body[at] as usize;
    SiteAt {
        start: at + 1,
        length: size,
        live: u64_at(body, at + size + 1),
        blocks: u32_at(body, at + size + 9),
    }
}

// The site at a place; reading's numbers, and 17 where there is no such place.
pub fn site(report: &[u8], place: u64) -> Result<SiteAt, Refusal>
    ensures { SiteOutcome report.now place (site_by result) }
{
    let checked = check_report(report)?;
    if checked.sites <= place {
        return Err(Refusal::NoSuchSite);
    }
    Ok(found(&report[..checked.end], place))
}

// The label of the site at a place, as a part of the report; the numbers of `site`.
pub fn label<'a>(report: &'a [u8], place: u64) -> Result<&'a [u8], Refusal>
    ensures { LabelOutcome report.now place (number result) (label_by result) }
{
    let at = site(report, place)?;
    Ok(&report[at.start..at.start + at.length])
}
