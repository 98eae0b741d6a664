// A judged report in the lent records.
ghost use Rattle.std.specs.Prelude.{◌≡◌, ◌≤◌, length};
ghost use Rattle.ledger.specs.Calls.{answer_by};
ghost use Rattle.ledger.specs.Inside.{enter_of};

use crate::answers::Answer;
use crate::records::Record;
use crate::searching::among;
use crate::surveying::Tally;
use algorithm::Refusal;

// Enters the record of a judged report, unless its fingerprint is there or there is no room for it. The tally is that of the records, so
// that they need not be surveyed again. The used ones stand first: their number is the place of the first free one.
pub(crate) fn enter(records: &mut [Record], tally: Tally, record: Record) -> Result<Answer, Refusal>
    requires { tally.used ≤ length records.old }
    ensures { (answer_by result, records.new) ≡ enter_of tally «record» records.old }
{
    if among(&records[..tally.used], &record) {
        return Ok(Answer::Seen);
    }
    if tally.used >= records.len() {
        return Err(Refusal::LedgerFull);
    }
    if octets::plus(tally.sum, record.live).is_none() {
        return Err(Refusal::TotalTooLarge);
    }
    records[tally.used] = record;
    Ok(Answer::New)
}
