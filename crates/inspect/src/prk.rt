// The PRK, raw bytes in a file of its own.
use crate::{files, inspection};
use std::env::Env;
use std::rt::Files;
use std::{fmt, io};

// The most bytes of a PRK here. The space has one more, so that a longer file shows.
const MOST: usize = 4095;

const SPACE: usize = 4096;

// Why there is nothing to inspect.
#[derive(Clone, Copy)]
enum Unreadable {
    PrkNotOpened(io::Error),
    PrkNotRead(io::Error),
    PrkTooLong,
    CaptureNotOpened(io::Error),
}

impl fmt::Display for Unreadable {
    fn fmt<W: fmt::Write>(&self, f: &mut fmt::Formatter<W>) -> fmt::Result {
        match *self {
            Unreadable::PrkNotOpened(error) => {
                write!(f, "the PRK cannot be opened: {}", files::reason(error))
            }
            Unreadable::PrkNotRead(error) => {
                write!(f, "the PRK cannot be read: {}", files::reason(error))
            }
            Unreadable::PrkTooLong => write!(f, "the PRK has more than {MOST} bytes"),
            Unreadable::CaptureNotOpened(error) => {
                write!(f, "the capture cannot be opened: {}", files::reason(error))
            }
        }
    }
}

// The PRK, read into a space.
fn read<'a, R: Env + Files>(rt: &R, space: &'a mut [u8; SPACE]) -> Result<&'a [u8], Unreadable> {
    let mut file = files::open(rt, 2).map_err(Unreadable::PrkNotOpened)?;
    let n = files::fill(&mut file, space).map_err(Unreadable::PrkNotRead)?;
    if MOST < n {
        return Err(Unreadable::PrkTooLong);
    }
    Ok(&space[..n])
}

// The PRK, and the capture, open for reading.
fn open<'a, R: Env + Files>(
    rt: &R,
    space: &'a mut [u8; SPACE],
) -> Result<(&'a [u8], R::File), Unreadable> {
    let prk = read(rt, space)?;
    let capture = files::open(rt, 1).map_err(Unreadable::CaptureNotOpened)?;
    Ok((prk, capture))
}

// The line on the PRK's length, with a warning where it is no digest's: a line end after the bytes makes other keys.
fn say_length(rt: &impl Print, n: usize) -> io::Result<()> {
    match n {
        32 | 64 => println!(rt; "PRK of {n} bytes"),
        _ => println!(rt;
            "PRK of {n} bytes, neither 32 nor 64: is it the PRK alone, with no line end?"
        ),
    }
}

// The PRK, and the capture under it.
pub(crate) fn inspect(rt: &(impl Print + Env + Files)) -> io::Result<()> {
    let mut space = [0; SPACE];
    match open(rt, &mut space) {
        Ok((prk, mut capture)) => {
            say_length(rt, prk.len())?;
            inspection::inspect(rt, &mut capture, prk)
        }
        Err(unreadable) => println!(rt; "unreadable: {unreadable}"),
    }
}
