// Writing a report from its fields, its sites and the tag key.
ghost use Rattle.report.specs.Calls.{written_by, WriteOutcome};
ghost use Rattle.report.specs.Lent.{columns_in};

use crate::checks::check_key;
use crate::columns::Columns;
use crate::filling::fill;
use crate::plans::make_plan;
use algorithm::Refusal;

// The fields before the sites that are the caller's to say; the call makes the count, the version and the number of sites itself.
// `hash` is wider than on the wire, so that a larger number is refused and never cut.
#[derive(Clone, Copy)]
pub struct Heading {
    pub hash: u32,
    pub tenant: u32,
    pub machine: u64,
    pub report: u64,
    pub sent: u64,
    pub attempt: u8,
    pub memory: u64,
}

// Writes a report and its tag over the beginning of `out`, and answers how many bytes it has; 2 where no report names the hash, 6 where
// the three slices of numbers are of unequal length, 13 where there are too many sites, 14 where a label's length is out of range, 15
// where the labels do not have as many bytes as the lengths add up to, 16 where the live bytes add up to too much, 3 where the key is too
// long, 21 where it is too short, 18 where `out` is too short.
pub fn write(
    heading: Heading,
    columns: &Columns<'_>,
    tag_key: &[u8],
    out: &mut [u8],
) -> Result<usize, Refusal>
    ensures { WriteOutcome heading (columns_in columns.now) tag_key.now out.old (written_by result) out.new }
{
    let plan = make_plan(heading.hash, columns)?;
    check_key(tag_key)?;
    let length = plan.body_size + plan.tag_size;
    if out.len() < length {
        return Err(Refusal::BufferTooShort);
    }
    fill(heading, columns, tag_key, plan, out);
    Ok(length)
}
