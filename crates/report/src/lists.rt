// The answers of `read` and `site` as lists of numbers, for callers that take no struct.
ghost use Rattle.std.specs.Prelude.{◌≡◌, Ok};
ghost use Rattle.algorithm.specs.Answers.{number};
ghost use Rattle.report.specs.Calls.{ReadIntoOutcome, SiteIntoOutcome, list_of, reading_by};

use crate::reading::{Reading, read};
use crate::sites::site;
use algorithm::Refusal;

// How many numbers a list of fields has, and one of a site.
const FIELDS: usize = 11;

const SITE: usize = 4;

// The fields of a reading, one after the other.
fn listed(found: Reading) -> [u64; FIELDS]
    ensures { result ≡ list_of (reading_by (Ok found)) }
{
    [
        found.count as u64,
        found.version as u64,
        found.hash as u64,
        found.tenant as u64,
        found.machine,
        found.report,
        found.sent,
        found.attempt as u64,
        found.memory,
        found.sites as u64,
        found.live,
    ]
}

// Every field in the order of the table, and the sum of live bytes; reading's numbers, 6 where `fields` has not eleven places.
pub fn read_into(report: &[u8], fields: &mut [u64]) -> Result<(), Refusal>
    ensures { ReadIntoOutcome report.now fields.old (number result) fields.new }
{
    let found = read(report)?;
    if fields.len() != FIELDS {
        return Err(Refusal::WrongSize);
    }
    octets::copy_prefix(&listed(found), fields);
    Ok(())
}

// Where the label of the site at a place starts, its length, live bytes and live blocks; the numbers of `site`, 6 where `numbers` has
// not four places.
pub fn site_into(report: &[u8], place: u64, numbers: &mut [u64]) -> Result<(), Refusal>
    ensures { SiteIntoOutcome report.now place numbers.old (number result) numbers.new }
{
    let found = site(report, place)?;
    if numbers.len() != SITE {
        return Err(Refusal::WrongSize);
    }
    let list = [
        found.start as u64,
        found.length as u64,
        found.live,
        u64::from(found.blocks),
    ];
    octets::copy_prefix(&list, numbers);
    Ok(())
}
