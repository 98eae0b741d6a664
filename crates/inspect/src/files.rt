// Files that the arguments name: opening them, reading from them, and why either failed.
ghost use Rattle.std.specs.Prelude.{◌≤◌, length, IfOk};

use std::env::{Env, FillError};
use std::io::{Error, ErrorKind, Read};
use std::rt::Files;
use std::{fs, io, str};

// The system's numbers for the two failures that are told apart although they have no kind of their own.
const EACCES: i32 = 13;

const EILSEQ: i32 = 84;

// The bytes of a path that is too long for the system.
const PATH: usize = 4096;

// Whether there is an argument at a place. The program's own name stands at 0.
pub(crate) fn has_argument(rt: &impl Env, place: usize) -> bool {
    !matches!(rt.arg(place, &mut []), Err(FillError::NotPresent))
}

// The file that an argument names, open for reading. A path that is not UTF-8 leads nowhere here.
pub(crate) fn open<R: Env + Files>(rt: &R, place: usize) -> io::Result<R::File> {
    let mut path = [0; PATH];
    let n = rt
        .arg(place, &mut path)
        .map_err(|_| ErrorKind::InvalidFilename)?;
    let path = str::from_utf8(&path[..n]).map_err(|_| Error::from_raw_os_error(EILSEQ))?;
    fs::open(rt, path)
}

// Reads until the space is full, the file ends or a read fails, and answers how many bytes came. A read may give fewer bytes than were
// asked for, as from a pipe. It stays a `while`: `read_exact` does not say how many bytes came before the end, and `io::copy`, which
// does, reads again where a signal interrupts it, and no contract of it holds that count to the space.
pub(crate) fn fill(file: &mut impl Read, space: &mut [u8]) -> io::Result<usize>
    ensures { IfOk result (λ came. came ≤ length space.new) }
{
    let mut done = 0;
    while done < space.len() {
        match file.read(&mut space[done..])? {
            0 => break,
            more => done += more,
        }
    }
    Ok(done)
}

// Why a file cannot be opened or read, in words.
pub(crate) fn reason(error: Error) -> &'static str {
    match error.kind() {
        ErrorKind::NotFound => "there is no such file",
        ErrorKind::IsADirectory => "it is a directory",
        ErrorKind::NotADirectory => "its path leads through no directory",
        ErrorKind::InvalidFilename => "its path is too long",
        _ => match error.raw_os_error() {
            Some(EACCES) => "it may not be read",
            Some(EILSEQ) => "its path is not UTF-8",
            _ => "the system refuses",
        },
    }
}
