// The line of one report. Every column is as wide as its largest number, so the lines are aligned whatever a capture holds.
use crate::judging::Judged;
use crate::meanings;
use algorithm::Refusal;
use octets::Hex;
use report::Reading;
use std::fmt::Display;
use std::io;

// A line: the offset, the other columns of numbers, the verdict and the fingerprint.
macro_rules! say_cells {
    ($rt:expr; $($cell:expr),+) => {
        println!($rt; "{:>20}{:>11}{:>21}{:>21}{:>8}{:>21}{:>6}{:>21}{:>21} {:<44} {}", $($cell),+)
    };
}

// The names of the columns.
pub(crate) fn say_names(rt: &impl Print) -> io::Result<()> {
    say_cells!(
        rt; "offset", "tenant", "machine", "report", "attempt", "send time (ms)", "sites", "live bytes", "machine memory", "verdict",
        "fingerprint"
    )
}

// A stroke in each column of a field, from the tenant to the send time and from there to the memory. They stand as text, since a column
// that is filled up to its width takes many times as long.
const ORIGIN_STROKES: &str =
    "          -                    -                    -       -                    -";

const CONTENT_STROKES: &str = "     -                    -                    -";

// The line of a report that reading refuses.
pub(crate) fn say_refused(rt: &impl Print, at: u64, refusal: Refusal) -> io::Result<()> {
    let words = meanings::words(Err(refusal));
    println!(rt; "{at:>20}{ORIGIN_STROKES}{CONTENT_STROKES} {words:<44} -")
}

// The line of a report that reading lets pass, with a verdict.
fn say_read(
    rt: &impl Print,
    at: u64,
    read: Reading,
    verdict: Result<(), Refusal>,
    fingerprint: impl Display + Drop,
) -> io::Result<()> {
    let words = meanings::words(verdict);
    say_cells!(
        rt; at, read.tenant, read.machine, read.report, read.attempt, read.sent, read.sites, read.live, read.memory, words,
        fingerprint
    )
}

// The line of a report that was judged. There is a fingerprint where the PRK served for one.
pub(crate) fn say(
    rt: &impl Print,
    at: u64,
    read: Reading,
    judged: Result<Judged, Refusal>,
) -> io::Result<()> {
    match judged {
        Ok(judged) => say_read(rt, at, read, judged.tag, Hex(&judged.fingerprint)),
        Err(refusal) => say_read(rt, at, read, Err(refusal), "-"),
    }
}
