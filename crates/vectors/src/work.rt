// What takes a message in pieces, a state of a hash or a keyed state, and the cases that both go through.
ghost use Rattle.std.specs.Prelude.{◌<◌};

use crate::made::LARGE_COUNTS;
use algorithm::{Hash, Refusal};
use std::{fmt, io};

pub(crate) trait Work: Copy + PartialEq {
    // A sound state with words of its own, which took so many bytes.
    fn own(hash: Hash, count: u64) -> Self;

    fn is_sound(self) -> bool;

    fn update(&mut self, piece: &[u8]) -> Result<(), Refusal>;

    // The bytes of its digest or of its tag.
    fn size(self) -> usize;

    // Lines on its digest or its tag in an output of this size.
    fn end<P: Print>(self, rt: &P, size: usize) -> io::Result<()>;

    // Every field.
    fn show<W: fmt::Write>(self, f: &mut fmt::Formatter<W>) -> fmt::Result;
}

// A whole state.
#[derive(Clone, Copy)]
pub(crate) struct Shown<T>(pub(crate) T);

impl<T: Work> fmt::Display for Shown<T> {
    fn fmt<W: fmt::Write>(&self, f: &mut fmt::Formatter<W>) -> fmt::Result {
        self.0.show(f)
    }
}

// The state that a piece leaves, taken or refused.
pub(crate) fn fed<T: Work>(mut state: T, piece: &[u8]) -> T {
    let _ = state.update(piece);
    state
}

// The state after a message in pieces of `size` bytes, the last one cut.
pub(crate) fn in_pieces<T: Work>(mut state: T, message: &[u8], size: usize) -> T
    requires { 0 < size }
{
    for piece in message.chunks(size) {
        state = fed(state, piece);
    }
    state
}

// The number that a piece gets and whether it leaves the state as it was, and that state.
pub(crate) fn back<T: Work>(rt: &impl Print, state: T, piece: &[u8]) -> io::Result<T> {
    let mut next = state;
    let fed = next.update(piece);
    let which = if state == next { "the same" } else { "another" };
    print!(rt; "{}, {which} state", algorithm::number(fed))?;
    Ok(next)
}

// A line on a piece, and the state that it leaves.
pub(crate) fn update<T: Work>(rt: &impl Print, state: T, piece: &[u8]) -> io::Result<T> {
    print!(rt; "  update, length {}: ", piece.len())?;
    let next = back(rt, state, piece)?;
    println!(rt)?;
    Ok(next)
}

// What a state answers, before and after a piece, into outputs of so many bytes.
pub(crate) fn going_on<T: Work>(rt: &impl Print, state: T, size: usize) -> io::Result<()> {
    let sound = if state.is_sound() {
        "sound"
    } else {
        "not sound"
    };
    println!(rt; "  {sound}")?;
    state.end(rt, size)?;
    let next = update(rt, state, b"abc")?;
    next.end(rt, size)
}

// A piece between the states before and after it, and the end that it leads to.
pub(crate) fn piece<T: Work>(rt: &impl Print, state: T, bytes: &[u8]) -> io::Result<()> {
    println!(rt; "{}", Shown(state))?;
    let next = update(rt, state, bytes)?;
    println!(rt; "{}", Shown(next))?;
    next.end(rt, next.size())
}

// One byte, and several blocks, after each large count.
pub(crate) fn large_counts<T: Work, P: Print>(rt: &P, hash: Hash, blocks: &[u8]) -> io::Result<()> {
    for count in LARGE_COUNTS {
        let state = T::own(hash, count);
        piece(rt, state, b"a")?;
        piece(rt, state, blocks)?;
    }
    Ok(())
}

// One byte before the most that may be hashed, and the state that the pieces there lead to.
pub(crate) fn limit<T: Work, P: Print>(rt: &P, hash: Hash) -> io::Result<T> {
    let before = T::own(hash, algorithm::MOST_BYTES - 1);
    println!(rt; "{}", Shown(before))?;
    let still = update(rt, before, b"ab")?;
    let full = update(rt, still, b"a")?;
    println!(rt; "{}", Shown(full))?;
    full.end(rt, full.size())?;
    let over = update(rt, full, b"a")?;
    let last = update(rt, over, b"")?;
    last.end(rt, last.size())?;
    Ok(last)
}

// Pieces of a pattern that end around the limit: the bytes taken before each, and how many it has.
pub(crate) fn onto_limit<T: Work, P: Print>(
    rt: &P,
    hash: Hash,
    pattern: &[u8],
    pieces: [(u64, usize); 4],
) -> io::Result<()> {
    for (count, size) in pieces {
        piece(rt, T::own(hash, count), &pattern[..size.min(pattern.len())])?;
    }
    Ok(())
}
