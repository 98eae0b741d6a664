// Submitting a report to a ledger.
ghost use Rattle.ledger.specs.Calls.{answer_by, SubmitOutcome};
ghost use Rattle.ledger.specs.Lent.{submission_in};

use crate::answers::Answer;
use crate::entering::enter;
use crate::judging::judge;
use crate::records::Record;
use crate::submission::Submission;
use crate::surveying::survey;
use algorithm::Refusal;

// Counts a report once. Refused with 10 where the records are not sound, then with reading's numbers, 3 where the tag key is too long,
// 21 where it is too short, 1 where the tag differs, 3 where the fingerprint key is too long, 21 where it is too short; then a report
// whose fingerprint is there is seen, and any other is refused with 19 where no record is free, with 20 where the sum would pass
// 2^64 - 1, and else entered in the first free record. Only a new report changes the records.
pub fn submit(records: &mut [Record], submission: &Submission<'_>) -> Result<Answer, Refusal>
    ensures { SubmitOutcome records.old (submission_in submission.now) (answer_by result) records.new }
{
    let tally = survey(records);
    let record = judge(tally, submission)?;
    enter(records, tally, record)
}
