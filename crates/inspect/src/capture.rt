// The capture, a report at a time, in a space that holds the largest.
ghost use Rattle.std.specs.Prelude.{◌≤◌, length, IfOk};
ghost use Rattle.report.specs.Layout.{largest_report};
ghost use Rattle.inspect.specs.Found.{Fits};

use crate::files;
use report::LARGEST_REPORT;
use std::io;
use std::io::Read;

// The bytes of a report's count.
const COUNT: usize = 4;

// Why a capture goes on with no report.
#[derive(Clone, Copy)]
pub enum Ending {
    // It ends where a report does.
    End,
    // A count is cut off after so many bytes.
    CutCount(usize),
    // A report that has so many bytes by its count is cut off after so many.
    CutReport(usize, usize),
    // A count makes a length that leads nowhere.
    Wild(usize),
    // A read failed.
    Unreadable(io::Error),
}

impl From<io::Error> for Ending {
    fn from(error: io::Error) -> Ending {
        Ending::Unreadable(error)
    }
}

// The rest of a report that has so many bytes.
fn rest(capture: &mut impl Read, space: &mut [u8], size: usize) -> Result<usize, Ending>
    requires space_holds_largest { largest_report ≤ length space.old }
    requires size_in_range { (5 ≤ size) × (size ≤ largest_report) }
    ensures { IfOk result Fits }
{
    let came = COUNT + files::fill(capture, &mut space[COUNT..size])?;
    if came < size {
        return Err(Ending::CutReport(size, came));
    }
    Ok(size)
}

// How many bytes the next report has, also one that is too short to be read: it stands at the start of the space. A count of nothing, or
// of more than a report has, ends the search for more: nothing tells where the next one would start.
pub(crate) fn next(capture: &mut impl Read, space: &mut [u8]) -> Result<usize, Ending>
    requires { largest_report ≤ length space.old }
    ensures { IfOk result Fits }
{
    match files::fill(capture, &mut space[..COUNT])? {
        0 => return Err(Ending::End),
        COUNT => {}
        came => return Err(Ending::CutCount(came)),
    }
    let count = u32::from_be_bytes([space[0], space[1], space[2], space[3]]);
    let size = COUNT + count as usize;
    if count == 0 || LARGEST_REPORT < size {
        return Err(Ending::Wild(size));
    }
    rest(capture, space, size)
}
