// States and patterns made by hand, and numbers that cases of several layers share.
use algorithm::Hash;
use hash::State;
use hmac::Keyed;
use std::array;

pub(crate) const HASHES: [Hash; 2] = [Hash::Sha256, Hash::Sha512];

// Numbers that name a hash, and numbers that name none.
pub(crate) const NUMBERS: [u32; 5] = [0, 1, 2, 3, 4294967295];

// Counts that are about to pass what a smaller number can hold: with a few bytes more they reach 2^31 or 2^32 bytes, or 2^32 or 2^63
// bits. At 2^32 - 128 a block of either hash ends, so that whole blocks lead past 2^32.
pub(crate) const LARGE_COUNTS: [u64; 5] = [
    (1 << 29) - 1,
    (1 << 31) - 1,
    (1 << 32) - 128,
    (1 << 32) - 1,
    (1 << 60) - 1,
];

// A fixed pattern: the byte at a place is the place modulo 251 on from the first byte, past 255 from 0 again.
pub(crate) fn pattern<const N: usize>(first: u8) -> [u8; N] {
    array::from_fn(|place| first.wrapping_add((place % 251) as u8))
}

// A state of zeros but for its count, its last word, and the waiting byte at a place, if one is given.
pub(crate) fn nearly_zero(hash: Hash, count: u64, place: Option<usize>, word: u64) -> State {
    State {
        hash,
        words: [0, 0, 0, 0, 0, 0, 0, word],
        count,
        waiting: array::from_fn(|at| u8::from(place == Some(at))),
    }
}

// A keyed state for full tags, of a state and outer words.
pub(crate) fn keyed(inner: State, outer: [u64; 8]) -> Keyed {
    let words = inner.words;
    let waiting = inner.waiting;
    Keyed {
        hash: inner.hash,
        tag_length: algorithm::digest_size(inner.hash),
        words,
        count: inner.count,
        waiting,
        outer,
    }
}
