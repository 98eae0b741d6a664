// One pass over all records, which tests whether the slice is sound, counts the used records and adds up their live bytes.
ghost use Rattle.std.specs.Prelude.{◌≡◌, ◌+◌, ◌^◌, ◌<◌};
ghost use Rattle.ledger.specs.Inside.{among, with_record, tally_of, sum_in};

use crate::records::{Record, is_used, is_zero};
use crate::searching::among;
use algorithm::Refusal;

// What is known of the records so far: whether a free one was met; how many are used; and the sum of their live bytes, none where it
// passed 2^64 - 1 or where they are out of order, that is not used before free, free ones all zero and no fingerprint twice.
#[derive(Clone, Copy)]
pub(crate) struct Tally {
    pub free: bool,
    pub used: usize,
    pub sum: Option<u64>,
}

// One record more, after the earlier ones.
fn with_record(tally: Tally, record: &Record, earlier: &[Record]) -> Tally
    requires { tally.used + 1 < 2 ^ 64 }
    ensures { result ≡ with_record tally «record».now (among «record».now.fingerprint earlier.now) }
{
    if is_used(record) {
        let sum = octets::plus(tally.sum, record.live);
        Tally {
            used: tally.used + 1,
            sum: sum.filter(|_| !tally.free && !among(earlier, record)),
            ..tally
        }
    } else {
        Tally {
            free: true,
            sum: tally.sum.filter(|_| is_zero(record)),
            ..tally
        }
    }
}

// The sum of the live bytes, where the records of a tally are sound.
pub(crate) fn sum_in(tally: Tally) -> Result<u64, Refusal>
    ensures { result ≡ sum_in tally }
{
    tally.sum.ok_or(Refusal::StateNotSound)
}

pub(crate) fn survey(records: &[Record]) -> Tally
    ensures { result ≡ tally_of records.now }
{
    let mut tally = Tally {
        free: false,
        used: 0,
        sum: Some(0),
    };
    for (i, record) in records.iter().enumerate() {
        tally = with_record(tally, record, &records[..i]);
    }
    tally
}
