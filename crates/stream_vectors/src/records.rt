// The records of the input, each read and run.
use crate::streams;
use cases::{Number, Stop};
use std::io::Read;
use stream::State;

// The most bytes of a piece and of a buffer.
const REPORT: usize = 4096;

// The next piece, fed to a stream, and the state after it.
fn piece(
    rt: &impl Print,
    from: &mut impl Read,
    state: State,
    buffer: &mut [u8],
) -> Result<State, Stop> {
    let mut space = [0u8; REPORT];
    let piece = cases::string(from, &mut space)?;
    Ok(streams::feed(rt, state, buffer, piece)?)
}

// A stream: its state, the size of its buffer and what that begins with, and then the pieces, fed one after the other.
fn feed(rt: &impl Print, from: &mut impl Read) -> Result<(), Stop> {
    let mut space = [0xa5u8; REPORT];
    let mut state = State {
        collected: u64::read_from(from)? as usize,
        closed: u32::read_from(from)?,
    };
    let size = cases::size(from, REPORT)?;
    let buffer = &mut space[..size];
    cases::string(from, buffer)?;
    for _ in 0..u8::read_from(from)? {
        state = piece(rt, from, state, buffer)?;
    }
    Ok(())
}

// A record of a kind.
pub(crate) fn run(rt: &impl Print, from: &mut impl Read, kind: u8) -> Result<(), Stop> {
    match kind {
        7 => feed(rt, from),
        _ => Err(Stop::NoRecord),
    }
}
