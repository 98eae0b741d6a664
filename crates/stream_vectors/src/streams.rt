// Feeding a stream.
use crate::say;
use std::io;
use stream::State;

// A piece is fed at most so often: each feed but the last uses a byte of it.
const MOST_FEEDS: usize = 4097;

// Feeds a piece, and the rest of it again as long as a feed uses some bytes and leaves others, each with a line on it. The state after
// the last.
pub(crate) fn feed(
    rt: &impl Print,
    state: State,
    buffer: &mut [u8],
    piece: &[u8],
) -> io::Result<State> {
    let mut now = state;
    let mut rest = piece;
    for _ in 0..MOST_FEEDS {
        let fed = stream::feed(now, buffer, rest);
        say::fed(rt, fed, buffer)?;
        now = fed.state;
        if fed.used == 0 || rest.len() <= fed.used {
            break;
        }
        rest = &rest[fed.used..];
    }
    Ok(now)
}
