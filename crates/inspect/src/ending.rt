// The last line: how the inspection ended. Its first words give the exit status of ./tirmuzzle.
use crate::capture::Ending;
use crate::files;
use report::{LARGEST_REPORT, SMALLEST_REPORT};
use std::io;
use std::io::{Seek, SeekFrom};

// A length that leads nowhere, and how many bytes from there on are left over. The system cannot always tell, as of a pipe.
fn say_wild(rt: &impl Print, capture: &mut impl Seek, at: u64, size: usize) -> io::Result<()> {
    print!(rt;
        "wild length: the count at byte {at} makes a report of {size} bytes, and one has {SMALLEST_REPORT} to {LARGEST_REPORT} (11)"
    )?;
    match capture.seek(SeekFrom::End(0)) {
        Ok(end) if at < end => println!(rt; "; the {} bytes from there on are not shown", end - at),
        _ => println!(rt; "; what stands from there on is not shown"),
    }
}

// What stands at a place: a report, of which there are too many, or why there is none.
pub(crate) fn say(
    rt: &impl Print,
    capture: &mut impl Seek,
    at: u64,
    next: Result<usize, Ending>,
) -> io::Result<()> {
    match next {
        Ok(_) => println!(rt; "full: no more reports are counted"),
        Err(Ending::End) if at == 0 => println!(rt; "end: the capture is empty"),
        Err(Ending::End) => println!(rt; "end: the capture was read to its end, {at} bytes"),
        Err(Ending::CutCount(came)) => {
            println!(rt;
                "cut off: the report at byte {at} is cut off inside its count, after {came} of 4 bytes"
            )
        }
        Err(Ending::CutReport(size, came)) => {
            println!(rt;
                "cut off: the report at byte {at} has {size} bytes by its count, and the capture ends after {came} of them"
            )
        }
        Err(Ending::Wild(size)) => say_wild(rt, capture, at, size),
        Err(Ending::Unreadable(error)) => {
            println!(rt;
                "unreadable: the capture cannot be read: {}",
                files::reason(error)
            )
        }
    }
}
