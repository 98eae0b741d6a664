// The checks of a report and its keys, and the record that would be entered for it.
ghost use Rattle.std.specs.Prelude.{◌≡◌};
ghost use Rattle.ledger.specs.Inside.{judged_by, judged_in};
ghost use Rattle.ledger.specs.Lent.{submission_in};

use crate::records::Record;
use crate::submission::Submission;
use crate::surveying::{Tally, sum_in};
use algorithm::Refusal;

// Checks a submission, and makes the record for it. The records come first: the report is not read where they are not sound. Then come
// reading and the tag, and then the fingerprint.
pub(crate) fn judge(tally: Tally, submission: &Submission<'_>) -> Result<Record, Refusal>
    ensures { judged_by result ≡ judged_in tally (submission_in submission.now) }
{
    let report = submission.report;
    sum_in(tally)?;
    report::check(report, submission.tag_key)?;
    let mut fingerprint = [0; 32];
    report::fingerprint(report, submission.fingerprint_key, &mut fingerprint)?;
    Ok(Record {
        fingerprint,
        live: report::read(report)?.live,
        in_use: 1,
    })
}
