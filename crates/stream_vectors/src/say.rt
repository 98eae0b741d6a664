// What the program writes of what came back of a feed.
use cases::Bytes;
use std::io;
use stream::{Answer, Fed};

// The bytes up to the last that is not a5.
fn written(bytes: &[u8]) -> &[u8] {
    match bytes.iter().rposition(|byte| *byte != 0xa5) {
        Some(last) => &bytes[..=last],
        None => b"",
    }
}

// What a feed answers, the state, and the buffer up to its last byte that is not a5.
pub(crate) fn fed(rt: &impl Print, fed: Fed, buffer: &[u8]) -> io::Result<()> {
    let case = match fed.answer {
        Ok(Answer::More) => "more",
        Ok(Answer::Whole) => "whole",
        Err(_) => "refused",
    };
    let number = stream::answer_number(fed.answer);
    let length = fed.length.map_or(0, |length| length.get());
    print!(rt; "feed: {number} {case}, {} {length},", fed.used)?;
    println!(rt;
        " {} {}, {}",
        fed.state.collected,
        fed.state.closed,
        Bytes(written(buffer))
    )
}
