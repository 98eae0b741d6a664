// What keyed states and the calls in one piece are asked for, of the message "abc" under the key "Jefe".
use crate::tagging::keyed;
use crate::work;
use algorithm::Hash;
use hmac::Keyed;
use std::io;

pub(crate) trait Asked: Copy {
    // What it is called.
    const NAME: &'static str;

    // A line on what a keyed state answers.
    fn of_state<P: Print>(self, rt: &P, keyed: Keyed) -> io::Result<()>;

    // A line on what the call in one piece answers.
    fn of_message<P: Print>(self, rt: &P, hash_number: u32, tag_length: usize) -> io::Result<()>;
}

// What each call answers for tags of this length: in one piece, after a start, and of states made by hand. An unknown hash is refused
// before the length, and the length before the size. A state of a length that is out of range is not sound.
pub(crate) fn each<A: Asked, P: Print>(
    rt: &P,
    asked: A,
    hash: Hash,
    tag_length: usize,
) -> io::Result<()> {
    asked.of_message(rt, hash.into(), tag_length)?;
    print!(rt; "  for hash 3: ")?;
    asked.of_message(rt, 3, tag_length)?;
    let started = hmac::start(hash.into(), b"Jefe", tag_length);
    print!(rt;
        "  by start and {}: {}, then ",
        A::NAME,
        algorithm::number(started)
    )?;
    let state = started.unwrap_or_default();
    asked.of_state(rt, work::fed(state, b"abc"))?;
    print!(rt; "  by {} of a state with this length put in: ", A::NAME)?;
    let put_in = Keyed {
        tag_length,
        ..keyed::taken(hash)
    };
    asked.of_state(rt, put_in)?;
    print!(rt; "  by {} of a state that is not sound: ", A::NAME)?;
    asked.of_state(rt, keyed::with_last(put_in, 1))
}
