// The edges that docs/PROTOCOL.md draws for HMAC: starts, keys, sound and unsound keyed states, the limit of bytes; and large
// counts.
use crate::made;
use crate::say::{self, Name};
use crate::tagging::keyed;
use crate::work::{self, Shown, Work};
use algorithm::{Hash, MOST_BYTES};
use hmac::Keyed;
use std::io;

// Tag lengths on both sides of each range, and the largest number.
const LENGTHS: [usize; 13] = [
    0,
    1,
    15,
    16,
    17,
    31,
    32,
    33,
    63,
    64,
    65,
    66,
    18446744073709551615,
];

// A start for each number, and how what came back goes on.
pub(crate) fn starts(rt: &impl Print) -> io::Result<()> {
    for number in made::NUMBERS {
        print!(rt; "start for hash {number}: ")?;
        let keyed = started(rt, number, b"Jefe", 32)?;
        work::going_on(rt, keyed, 32)?;
        in_one_call(rt, number)?;
        print!(rt; "  for tags of length 1: ")?;
        started(rt, number, b"Jefe", 1)?;
    }
    Ok(())
}

// What a start answers, and the keyed state that it makes, or zeros for a refused one, in full.
fn started(rt: &impl Print, number: u32, key: &[u8], tag_length: usize) -> io::Result<Keyed> {
    let started = hmac::start(number, key, tag_length);
    let keyed = started.unwrap_or_default();
    println!(rt; "{}, {}", algorithm::number(started), Shown(keyed))?;
    Ok(keyed)
}

fn in_one_call(rt: &impl Print, number: u32) -> io::Result<()> {
    print!(rt; "  tag_message of \"abc\": ")?;
    say::output(
        rt,
        32,
        |out| hmac::tag_message(number, b"Jefe", b"abc", 32, out),
    )?;
    print!(rt; "  verify_message of \"abc\" with zeros: ")?;
    say::answer(
        rt,
        hmac::verify_message(number, b"Jefe", b"abc", 32, &[0; 32]),
    )
}

// A start for each tag length, and how what came back goes on.
pub(crate) fn lengths(rt: &impl Print, hash: Hash) -> io::Result<()> {
    for tag_length in LENGTHS {
        print!(rt;
            "start for hash {} and tags of length {tag_length}: ",
            u32::from(hash)
        )?;
        let keyed = started(rt, hash.into(), b"Jefe", tag_length)?;
        work::going_on(rt, keyed, tag_length.min(66))?;
    }
    Ok(())
}

const KEYS: [usize; 9] = [0, 1, 63, 64, 65, 127, 128, 129, 300];

// Keys of lengths around a block's.
pub(crate) fn keys(rt: &impl Print, hash: Hash) -> io::Result<()> {
    let bytes: [u8; 300] = made::pattern(1);
    for length in KEYS {
        under(rt, hash, &bytes[..length])?;
    }
    Ok(())
}

fn under(rt: &impl Print, hash: Hash, key: &[u8]) -> io::Result<()> {
    let size = algorithm::digest_size(hash);
    print!(rt;
        "HMAC-{} of \"abc\" under a key of length {}: ",
        Name(hash),
        key.len()
    )?;
    say::output(
        rt,
        size,
        |out| hmac::tag_message(hash.into(), key, b"abc", size, out),
    )?;
    print!(rt; "  start: ")?;
    let keyed = started(rt, hash.into(), key, size)?;
    work::going_on(rt, keyed, size)
}

// Keyed states that differ from zeros in the count, in the waiting byte at a place, in the last word and in the last outer word.
const STATES: [(u64, Option<usize>, u64, u64); 27] = [
    (0, None, 0, 0),
    (63, None, 0, 0),
    (64, None, 0, 0),
    (127, None, 0, 0),
    (128, None, 0, 0),
    (64, Some(0), 0, 0),
    (128, Some(0), 0, 0),
    (130, Some(1), 0, 0),
    (130, Some(2), 0, 0),
    (130, Some(64), 0, 0),
    (130, Some(127), 0, 0),
    (191, Some(62), 0, 0),
    (191, Some(63), 0, 0),
    (255, Some(126), 0, 0),
    (255, Some(127), 0, 0),
    (128, None, 4294967295, 0),
    (128, None, 4294967296, 0),
    (128, None, 18446744073709551615, 0),
    (128, None, 0, 4294967295),
    (128, None, 0, 4294967296),
    (128, None, 0, 18446744073709551615),
    (4294967295, None, 0, 0),
    (4294967296, None, 0, 0),
    (MOST_BYTES - 1, None, 0, 0),
    (MOST_BYTES, None, 0, 0),
    (MOST_BYTES + 1, None, 0, 0),
    (18446744073709551615, None, 0, 0),
];

pub(crate) fn states(rt: &impl Print, hash: Hash) -> io::Result<()> {
    for (count, place, word, outer) in STATES {
        let inner = made::nearly_zero(hash, count, place, word);
        let keyed = made::keyed(inner, [0, 0, 0, 0, 0, 0, 0, outer]);
        println!(rt; "{}", Shown(keyed))?;
        work::going_on(rt, keyed, keyed.size())?;
    }
    Ok(())
}

// States that no call made with each tag length, sound where it is in range.
pub(crate) fn state_lengths(rt: &impl Print, hash: Hash) -> io::Result<()> {
    for tag_length in LENGTHS {
        let keyed = Keyed {
            tag_length,
            ..Keyed::own(hash, 200)
        };
        println!(rt; "{}", Shown(keyed))?;
        work::going_on(rt, keyed, tag_length.min(66))?;
    }
    Ok(())
}

// Several blocks that end at the limit, and one byte past it: after bytes that wait, then where a block ends.
const ONTO_LIMIT: [(u64, usize); 4] = [
    (MOST_BYTES - 300, 300),
    (MOST_BYTES - 299, 300),
    (MOST_BYTES - 255, 255),
    (MOST_BYTES - 255, 256),
];

// With a tag length that is out of range, the state is refused before the bytes are.
pub(crate) fn limit(rt: &impl Print, hash: Hash) -> io::Result<()> {
    let full = work::limit::<Keyed, _>(rt, hash)?;
    let unsound = Keyed {
        tag_length: 1,
        ..full
    };
    println!(rt; "{}", Shown(unsound))?;
    let next = work::update(rt, unsound, b"a")?;
    next.end(rt, algorithm::digest_size(hash))?;
    work::onto_limit::<Keyed, _>(rt, hash, &made::pattern::<300>(1), ONTO_LIMIT)
}

pub(crate) fn large_counts(rt: &impl Print, hash: Hash) -> io::Result<()> {
    work::large_counts::<Keyed, _>(rt, hash, &made::pattern::<300>(1))
}
