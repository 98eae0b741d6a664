// Digests of messages: those that NIST published, and a fixed pattern at lengths around the edges of a block.
use crate::hashing::states;
use crate::say::{self, Name};
use crate::{made, work};
use algorithm::Hash;
use hash::State;
use std::{fmt, io};

// A message with its name, for a hash.
#[derive(Clone, Copy)]
struct Case<'a> {
    hash: Hash,
    name: &'a str,
    message: &'a [u8],
}

impl<'a> fmt::Display for Case<'a> {
    fn fmt<W: fmt::Write>(&self, f: &mut fmt::Formatter<W>) -> fmt::Result {
        write!(
            f,
            "{} of {}, length {}",
            Name(self.hash),
            self.name,
            self.message.len()
        )
    }
}

fn in_one_call(rt: &impl Print, case: Case) -> io::Result<()> {
    print!(rt; "{case}, in one call: ")?;
    let size = algorithm::digest_size(case.hash);
    say::output(
        rt,
        size,
        |out| hash::digest(case.hash.into(), case.message, out),
    )
}

// The end of a state that took the message in some way.
fn in_a_way(rt: &impl Print, case: Case, way: &str, state: State) -> io::Result<()> {
    print!(rt; "{case}, {way}: ")?;
    let size = algorithm::digest_size(case.hash);
    say::output(rt, size, |out| hash::finish(state, out))
}

// In two pieces, cut at a place, or after the last byte where the place is past it.
fn cut(state: State, message: &[u8], place: usize) -> State {
    let (first, second) = message.split_at(place.min(message.len()));
    work::fed(work::fed(state, first), second)
}

// In two halves with an empty piece between.
fn with_empty(state: State, message: &[u8]) -> State {
    let (first, second) = message.split_at(message.len() / 2);
    let between = work::fed(work::fed(state, first), b"");
    work::fed(between, second)
}

// A message in one call, and in every way for short messages.
fn each(rt: &impl Print, hash: Hash, name: &str, message: &[u8]) -> io::Result<()> {
    let case = Case {
        hash,
        name,
        message,
    };
    let start = states::started(hash);
    let half = message.len() / 2;
    let last = message.len().saturating_sub(1);
    in_one_call(rt, case)?;
    in_a_way(rt, case, "in one piece", work::fed(start, message))?;
    in_a_way(rt, case, "cut at 0", cut(start, message, 0))?;
    in_a_way(rt, case, "cut at 1", cut(start, message, 1))?;
    in_a_way(rt, case, "cut in the middle", cut(start, message, half))?;
    in_a_way(
        rt,
        case,
        "cut before the last byte",
        cut(start, message, last),
    )?;
    in_a_way(rt, case, "byte by byte", work::in_pieces(start, message, 1))?;
    in_a_way(
        rt,
        case,
        "in pieces of 7",
        work::in_pieces(start, message, 7),
    )?;
    in_a_way(
        rt,
        case,
        "in halves with an empty piece between",
        with_empty(start, message),
    )
}

// The examples of FIPS 180-4 and the empty message.
pub(crate) fn published(rt: &impl Print, hash: Hash) -> io::Result<()> {
    let two_blocks = match hash {
        Hash::Sha256 => "abcdbcdecdefdefgefghfghighijhijkijkljklmklmnlmnomnopnopq",
        Hash::Sha512 =>
            "abcdefghbcdefghicdefghijdefghijkefghijklfghijklmghijklmnhijklmnoijklmnopjklmnopqklmnopqrlmnopqrsmnopqrstnopqrstu",
    };
    each(rt, hash, "the empty message", b"")?;
    each(rt, hash, "\"abc\"", b"abc")?;
    each(rt, hash, "the message of two blocks", two_blocks.as_bytes())
}

// A million letters a.
pub(crate) fn million(rt: &impl Print, hash: Hash) -> io::Result<()> {
    let letters = [b'a'; 1000000];
    of_letters(rt, hash, &letters)
}

fn of_letters(rt: &impl Print, hash: Hash, message: &[u8; 1000000]) -> io::Result<()> {
    let case = Case {
        hash,
        name: "a million letters a",
        message,
    };
    let start = states::started(hash);
    in_one_call(rt, case)?;
    in_a_way(rt, case, "in one piece", work::fed(start, message))?;
    in_a_way(
        rt,
        case,
        "in pieces of 1000",
        work::in_pieces(start, message, 1000),
    )
}

const LENGTHS: [usize; 17] = [
    0, 1, 55, 56, 63, 64, 65, 111, 112, 119, 120, 127, 128, 129, 255, 256, 257,
];

pub(crate) fn lengths(rt: &impl Print, hash: Hash) -> io::Result<()> {
    let bytes: [u8; 257] = made::pattern(0);
    for length in LENGTHS {
        each(rt, hash, "the pattern", &bytes[..length])?;
    }
    Ok(())
}
