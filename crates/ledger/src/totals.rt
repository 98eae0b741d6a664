// The total of a ledger.
ghost use Rattle.ledger.specs.Calls.{summed_by, TotalOutcome};

use crate::records::Record;
use crate::surveying::{sum_in, survey};
use algorithm::Refusal;

// The live bytes of the used records, or 10 where the slice is not sound.
pub fn total(records: &[Record]) -> Result<u64, Refusal>
    ensures { TotalOutcome records.now (summed_by result) }
{
    sum_in(survey(records))
}
