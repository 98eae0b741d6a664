// The inspection: each report in turn, then the totals and how it ended.
ghost use Rattle.std.specs.Prelude.{◌≡◌, ◌+◌, ◌<◌, ◌≤◌, length, IfOk};
ghost use Rattle.report.specs.Layout.{largest_report};
ghost use Rattle.report.specs.Reading.{read_of};
ghost use Rattle.report.specs.Calls.{reading_of};
ghost use Rattle.inspect.specs.Judging.{line_of};
ghost use Rattle.inspect.specs.Tally.{live_with};

use crate::tally::{MOST_REPORTS, Tally};
use crate::{capture, ending, judging, row, tally};
use std::io;
use std::io::{Read, Seek};

// The bytes of the space for a report, some more than the largest has.
const SPACE: usize = 4096;

// The line of a report, and the totals with it.
fn inspect_one(rt: &impl Print, report: &[u8], prk: &[u8], before: Tally) -> io::Result<Tally>
    requires room { before.reports < 4503599627370496 }
    requires fits { length report.now ≤ largest_report }
    ensures reports { IfOk result (λ after. after.reports ≡ before.reports + 1) }
    ensures live { IfOk result (λ after. after.live ≡ live_with before.live (line_of report.now (reading_of (read_of report.now)) prk.now) (reading_of (read_of report.now)).live) }
{
    match report::read(report) {
        Ok(read) => {
            let judged = judging::judge(report, read, prk);
            row::say(rt, before.at, read, judged)?;
            let verdict = judging::verdict(judged);
            Ok(tally::counted(before, verdict, read.live, report.len()))
        }
        Err(refusal) => {
            row::say_refused(rt, before.at, refusal)?;
            Ok(tally::counted(before, Err(refusal), 0, report.len()))
        }
    }
}

pub(crate) fn inspect(
    rt: &impl Print,
    capture: &mut (impl Read + Seek),
    prk: &[u8],
) -> io::Result<()> {
    let mut space = [0; SPACE];
    let mut totals = tally::none();
    let mut next = capture::next(capture, &mut space);
    row::say_names(rt)?;
    for _ in 0..MOST_REPORTS {
        let Ok(size) = next else {
            break;
        };
        totals = inspect_one(rt, &space[..size], prk, totals)?;
        next = capture::next(capture, &mut space);
    }
    tally::say(rt, totals)?;
    ending::say(rt, capture, totals.at, next)
}
