// Submitting a report to a ledger of one record.
use crate::say;
use ledger::{Record, Submission};
use std::io;

// Submits a report to a ledger of one free record, and once more to the ledger after it, each with a line on it.
pub(crate) fn submit_twice(rt: &impl Print, submission: &Submission<'_>) -> io::Result<()> {
    let mut records = [Record {
        fingerprint: [0; 32],
        live: 0,
        in_use: 0,
    }];
    for _ in 0..2u8 {
        let answer = ledger::submit(&mut records, submission);
        say::submitted(rt, answer, records[0])?;
    }
    Ok(())
}
