// The totals: how many reports there are, what the verdicts were, and the live bytes of those whose tag matches.
ghost use Rattle.std.specs.Prelude.{◌≡◌, ◌+◌, ◌*◌, ◌<◌, ◌≤◌};
ghost use Rattle.algorithm.specs.Answers.{number};
ghost use Rattle.report.specs.Layout.{largest_report};
ghost use Rattle.inspect.specs.Tally.{live_with};

use algorithm::Refusal;
use std::io;

// More reports than any capture has; it keeps every count below 2^64.
pub(crate) const MOST_REPORTS: u64 = 4503599627370496;

// The place after the last report, the reports, how many of them have which verdict, and the live bytes of those whose tag matches: none
// where they are over 2^64 - 1. Each report is counted once, and the place is at most that after so many of the largest.
#[derive(Clone, Copy)]
pub struct Tally {
    pub at: u64,
    pub reports: u64,
    pub matching: u64,
    pub differing: u64,
    pub refused: u64,
    pub live: Option<u64>,
    ghost counts: { matching + differing + refused ≡ reports },
    ghost place: { at ≤ largest_report * reports },
}

pub(crate) fn none() -> Tally
    ensures reports { result.reports ≡ 0 }
{
    Tally {
        at: 0,
        reports: 0,
        matching: 0,
        differing: 0,
        refused: 0,
        live: Some(0),
    }
}

// The totals with one more report, of which the verdict, the live bytes and the size are known.
pub(crate) fn counted(tally: Tally, verdict: Result<(), Refusal>, live: u64, size: usize) -> Tally
    requires room { tally.reports < 4503599627370496 }
    requires fits { size ≤ largest_report }
    ensures reports { result.reports ≡ tally.reports + 1 }
    ensures live { result.live ≡ live_with tally.live (number verdict) live }
{
    let mut next = tally;
    next.at += size as u64;
    next.reports += 1;
    match verdict {
        Ok(()) => {
            next.matching += 1;
            next.live = octets::plus(tally.live, live);
        }
        Err(Refusal::TagDiffers) => next.differing += 1,
        Err(_) => next.refused += 1,
    }
    next
}

pub(crate) fn say(rt: &impl Print, tally: Tally) -> io::Result<()> {
    println!(rt)?;
    println!(rt; "reports: {}", tally.reports)?;
    println!(rt; "tag matches: {}", tally.matching)?;
    println!(rt; "tag differs: {}", tally.differing)?;
    println!(rt; "refused: {}", tally.refused)?;
    print!(rt; "live bytes where the tag matches, retries counted as often as sent: ")?;
    match tally.live {
        Some(live) => println!(rt; "{live}"),
        None => println!(rt; "over {} (2^64 - 1)", u64::MAX),
    }
}
