// What the program writes of what came back of a call.
use algorithm::{Refusal, number};
use cases::Bytes;
use ledger::{Answer, Record};
use report::{Reading, SiteAt};
use std::io;

// The number that a call answers, and its output.
pub(crate) fn answer(rt: &impl Print, answered: Result<(), Refusal>, out: &[u8]) -> io::Result<()> {
    println!(rt; "{}, {}", number(answered), Bytes(out))
}

// The number and every field of a report: zeros where it is refused.
pub(crate) fn reading(rt: &impl Print, answered: Result<Reading, Refusal>) -> io::Result<()> {
    print!(rt; "{},", number(answered))?;
    let read = answered.unwrap_or_default();
    print!(rt;
        " {} {} {} {}",
        read.count, read.version, read.hash, read.tenant
    )?;
    print!(rt;
        " {} {} {} {}",
        read.machine, read.report, read.sent, read.attempt
    )?;
    println!(rt; " {} {} {}", read.memory, read.sites, read.live)
}

// The number and what is known of a site, zeros where there is none, but for the end of its line.
pub(crate) fn site(rt: &impl Print, answered: Result<SiteAt, Refusal>) -> io::Result<()> {
    let at = answered.unwrap_or_default();
    print!(rt;
        "{}, {} {} {} {}",
        number(answered),
        at.start,
        at.length,
        at.live,
        at.blocks
    )
}

// What a write answers, and its output. The hint keeps what printing takes of the stack out of the frame in which a report is written.
#[inline(never)]
pub(crate) fn written(
    rt: &impl Print,
    written: Result<usize, Refusal>,
    out: &[u8],
) -> io::Result<()> {
    let length = written.unwrap_or(0);
    println!(rt; "write: {}, {length}, {}", number(written), Bytes(out))
}

// What a submission answers, and the record of the ledger after it.
pub(crate) fn submitted(
    rt: &impl Print,
    answered: Result<Answer, Refusal>,
    record: Record,
) -> io::Result<()> {
    let seen = ledger::answer_seen(answered);
    print!(rt;
        "submit: {}, {seen}, {} {}",
        number(answered),
        record.in_use,
        record.live
    )?;
    println!(rt; " {}", Bytes(&record.fingerprint))
}
