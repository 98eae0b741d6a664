// One feed: the checks in their order, then the bytes.
ghost use Rattle.stream.specs.Calls.{fed_by, FeedOutcome};

use crate::answers::{Fed, State, refused};
use crate::taking::take_in;
use crate::totals::waits;
use algorithm::Refusal;

// The most bytes that wait in the buffer: one fewer than the largest report has.
const MOST_COLLECTED: usize = 3980;

// Takes bytes of the piece into the buffer, up to the end of the report on its way. 10 where more than 3,980 bytes are collected, 6
// where the buffer has not 3,981, 10 where the stream is open and the collected bytes do not wait for more, 11 where it is closed: these
// use and write nothing. Then 11 closes the stream where the first four bytes name a total out of range, and a whole report gets the
// plain reader's number; both leave the bytes used in the buffer. What was not used is to be fed again.
pub fn feed(state: State, buffer: &mut [u8], piece: &[u8]) -> Fed
    ensures { FeedOutcome state buffer.old piece.now (fed_by result) buffer.new }
{
    let collected = state.collected;
    if MOST_COLLECTED < collected {
        return refused(state, Refusal::StateNotSound);
    }
    if buffer.len() != report::LARGEST_REPORT {
        return refused(state, Refusal::WrongSize);
    }
    // The third check is of open streams alone, so that the fourth may be made before it.
    if state.closed != 0 {
        return refused(state, Refusal::WrongReportLength);
    }
    if !waits(&buffer[..collected]) {
        return refused(state, Refusal::StateNotSound);
    }
    take_in(collected, buffer, piece)
}
