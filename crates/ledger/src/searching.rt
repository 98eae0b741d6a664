// Looking for a fingerprint among some records.
ghost use Rattle.std.specs.Prelude.{◌≡◌};
ghost use Rattle.ledger.specs.Inside.{among};

use crate::records::{Record, same_fingerprint};

// Whether one of the records has the fingerprint of another.
pub(crate) fn among(records: &[Record], record: &Record) -> bool
    ensures { result ≡ among «record».now.fingerprint records.now }
{
    records
        .iter()
        .any(|earlier| same_fingerprint(earlier, record))
}
