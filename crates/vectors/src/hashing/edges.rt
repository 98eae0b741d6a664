// The edges that docs/PROTOCOL.md draws for a hash: starts, sound and unsound states, the limit of bytes, sizes of the output; and
// large counts.
use crate::hashing::states;
use crate::made;
use crate::say::{self, Name};
use crate::work::{self, Shown, Work};
use algorithm::{Hash, MOST_BYTES};
use hash::State;
use std::io;

// A start for each number, and how what came back goes on.
pub(crate) fn starts(rt: &impl Print) -> io::Result<()> {
    for number in made::NUMBERS {
        start(rt, number)?;
    }
    Ok(())
}

fn start(rt: &impl Print, number: u32) -> io::Result<()> {
    let started = hash::start(number);
    let state = started.unwrap_or_default();
    println!(rt;
        "start for hash {number}: {}, {}",
        algorithm::number(started),
        Shown(state)
    )?;
    let next = work::update(rt, state, b"abc")?;
    next.end(rt, next.size())?;
    print!(rt; "  digest of \"abc\": ")?;
    say::output(rt, 32, |out| hash::digest(number, b"abc", out))
}

// States that differ from zeros in the count, in the waiting byte at a place and in the last word.
const STATES: [(u64, Option<usize>, u64); 20] = [
    (0, None, 0),
    (0, Some(0), 0),
    (0, Some(64), 0),
    (0, Some(127), 0),
    (3, Some(2), 0),
    (3, Some(3), 0),
    (63, Some(62), 0),
    (63, Some(63), 0),
    (64, Some(0), 0),
    (127, Some(126), 0),
    (127, Some(127), 0),
    (0, None, 4294967295),
    (0, None, 4294967296),
    (0, None, 18446744073709551615),
    (4294967295, None, 0),
    (4294967296, None, 0),
    (MOST_BYTES - 1, None, 0),
    (MOST_BYTES, None, 0),
    (MOST_BYTES + 1, None, 0),
    (18446744073709551615, None, 0),
];

pub(crate) fn states(rt: &impl Print, hash: Hash) -> io::Result<()> {
    for (count, place, word) in STATES {
        let state = made::nearly_zero(hash, count, place, word);
        println!(rt; "{}", Shown(state))?;
        work::going_on(rt, state, state.size())?;
    }
    Ok(())
}

// Several blocks that end at the limit, and one byte past it: after bytes that wait, then where a block ends.
const ONTO_LIMIT: [(u64, usize); 4] = [
    (MOST_BYTES - 385, 385),
    (MOST_BYTES - 384, 385),
    (MOST_BYTES - 383, 383),
    (MOST_BYTES - 383, 384),
];

pub(crate) fn limit(rt: &impl Print, hash: Hash) -> io::Result<()> {
    work::limit::<State, _>(rt, hash)?;
    work::onto_limit::<State, _>(rt, hash, &made::pattern::<385>(0), ONTO_LIMIT)
}

// The pattern has one byte more than three of the largest blocks.
pub(crate) fn large_counts(rt: &impl Print, hash: Hash) -> io::Result<()> {
    work::large_counts::<State, _>(rt, hash, &made::pattern::<385>(0))
}

const SIZES: [usize; 7] = [0, 31, 32, 33, 63, 64, 65];

// Outputs of other sizes than a digest's. An unknown hash and an unsound state are refused before the size is.
pub(crate) fn sizes(rt: &impl Print, hash: Hash) -> io::Result<()> {
    let state = work::fed(states::started(hash), b"abc");
    let unsound = made::nearly_zero(hash, 0, Some(0), 0);
    for size in SIZES {
        print!(rt; "{} of \"abc\" into {size} bytes: ", Name(hash))?;
        say::output(rt, size, |out| hash::digest(hash.into(), b"abc", out))?;
        print!(rt; "  for hash 3: ")?;
        say::output(rt, size, |out| hash::digest(3, b"abc", out))?;
        print!(rt; "  by finish: ")?;
        say::output(rt, size, |out| hash::finish(state, out))?;
        print!(rt; "  by finish of a state that is not sound: ")?;
        say::output(rt, size, |out| hash::finish(unsound, out))?;
    }
    Ok(())
}

const COUNTS: [u64; 5] = [0, 1, 64, 128, 1000];

// States with words of their own go on from them, after their end was asked for.
pub(crate) fn going_on(rt: &impl Print, hash: Hash) -> io::Result<()> {
    for count in COUNTS {
        let state = State::own(hash, count);
        println!(rt; "{}", Shown(state))?;
        state.end(rt, state.size())?;
        let next = work::update(rt, state, b"abc")?;
        next.end(rt, next.size())?;
        let last = work::update(rt, next, b"def")?;
        last.end(rt, last.size())?;
    }
    Ok(())
}
