// The tag of a report, checked under the tag key.
ghost use Rattle.algorithm.specs.Answers.{number};
ghost use Rattle.report.specs.Calls.{CheckOutcome};

use crate::checks::{check_key, check_report};
use crate::format::TAGGED_FROM;
use algorithm::Refusal;

// Whether the tag is that of all bytes before it; reading's numbers, 3 where the key is too long, 21 where it is too short, then 1 where
// the tag differs.
pub fn check(report: &[u8], tag_key: &[u8]) -> Result<(), Refusal>
    ensures { CheckOutcome report.now tag_key.now (number result) }
{
    let checked = check_report(report)?;
    check_key(tag_key)?;
    let end = checked.end;
    hmac::verify_message(
        checked.hash.into(),
        tag_key,
        &report[TAGGED_FROM..end],
        report.len() - end,
        &report[end..],
    )
}
