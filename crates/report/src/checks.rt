// The checks of a report in their order, and those of its key.
ghost use Rattle.std.specs.Prelude.{◌≡◌};
ghost use Rattle.algorithm.specs.Answers.{number};
ghost use Rattle.algorithm.specs.Checks.{first_failing};
ghost use Rattle.report.specs.Reading.{start_checks};
ghost use Rattle.report.specs.Calls.{key_checks};
ghost use Rattle.report.specs.Inside.{head_of, head_by, checked_of, checked_by};

use crate::format::{
    COUNT_END, HEAD, MOST_SITES, SHORTEST_REPORT_KEY, SMALLEST_REPORT, hash_named, tag_size,
};
use crate::numbers::{u8_at, u16_at, u32_at};
use crate::walk;
use algorithm::{Hash, Refusal};

// The checks of length, count and version.
fn check_start(report: &[u8]) -> Result<(), Refusal>
    ensures { number result ≡ first_failing (start_checks report.now) }
{
    if report.len() < SMALLEST_REPORT {
        return Err(Refusal::WrongReportLength);
    }
    if u32_at(report, 0) as usize != report.len() - COUNT_END {
        return Err(Refusal::WrongReportLength);
    }
    if u8_at(report, 4) != 1 {
        return Err(Refusal::UnknownVersion);
    }
    Ok(())
}

// The checks before the sites; which hash the report names, and where its tag starts.
fn check_head(report: &[u8]) -> Result<(Hash, usize), Refusal>
    ensures { head_by result ≡ head_of report.now }
{
    check_start(report)?;
    let hash = hash_named(u8_at(report, 5).into())?;
    let tag = tag_size(hash);
    if report.len() < HEAD + tag {
        return Err(Refusal::WrongReportLength);
    }
    if MOST_SITES < u64::from(u16_at(report, 43)) {
        return Err(Refusal::TooManySites);
    }
    Ok((hash, report.len() - tag))
}

// What all checks find out of a report that they let pass: its hash, where its tag starts, how many sites it has and the sum
// of their live bytes.
#[derive(Clone, Copy)]
pub struct Checked {
    pub hash: Hash,
    pub end: usize,
    pub sites: u64,
    pub live: u64,
}

pub(crate) fn check_report(report: &[u8]) -> Result<Checked, Refusal>
    ensures { checked_by result ≡ checked_of report.now }
{
    let (hash, end) = check_head(report)?;
    let sites = u64::from(u16_at(report, 43));
    let live = walk::walk_sites(&report[..end], sites)?;
    Ok(Checked {
        hash,
        end,
        sites,
        live,
    })
}

// The checks of a report's key, which writing, the tag and the fingerprint share.
pub(crate) fn check_key(key: &[u8]) -> Result<(), Refusal>
    ensures { number result ≡ first_failing (key_checks key.now) }
{
    if algorithm::MOST_BYTES < key.len() as u64 {
        return Err(Refusal::KeyTooLong);
    }
    if key.len() < SHORTEST_REPORT_KEY {
        return Err(Refusal::KeyTooShort);
    }
    Ok(())
}
