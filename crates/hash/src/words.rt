// The words of the block step: numbers of 32 bits or of 64, with the functions that the standard makes of them, and how they are read
// from bytes, big-endian (FIPS 180-4, sections 3.1, 3.2 and 4.1). What differs between the widths stands in the trait's impls, so that
// the block step is written once.
ghost use Rattle.std.specs.Prelude.{◌≡◌, ℕ, ◌+◌, ◌<◌, ◌≤◌, length, take, drop, slice_index};
ghost use Rattle.octets.specs.Number.{number};
ghost use Rattle.hash.specs.Word as word;
ghost use Rattle.hash.specs.Description.{Core};
ghost use Rattle.hash.specs.Sizes.{Sizes, Room};
ghost use Rattle.hash.specs.Sha2 as sha;

use crate::table::Table;

pub(crate) trait Word: Copy {
    // The core of the hash that works on these words.
    ghost core: { Core };

    // The number that a word is.
    ghost value: { Self → ℕ };

    // The bytes of a word.
    ghost BYTES: { ℕ };

    const BYTES: usize;

    // The rounds of a block.
    ghost ROUNDS: { ℕ };

    const ROUNDS: usize;

    fn add(self, other: Self) -> Self
        ensures { value result ≡ word.add core.width (value self) (value other) };

    fn ch(x: Self, y: Self, z: Self) -> Self
        ensures { value result ≡ word.ch core.width (value x) (value y) (value z) };

    fn maj(x: Self, y: Self, z: Self) -> Self
        ensures { value result ≡ word.maj (value x) (value y) (value z) };

    fn big0(x: Self) -> Self
        ensures { value result ≡ sha.big0 core (value x) };

    fn big1(x: Self) -> Self
        ensures { value result ≡ sha.big1 core (value x) };

    fn small0(x: Self) -> Self
        ensures { value result ≡ sha.small0 core (value x) };

    fn small1(x: Self) -> Self
        ensures { value result ≡ sha.small1 core (value x) };

    // The constant of the round t; `k` is the table.
    fn constant(k: &Table, t: usize) -> Self
        requires { t < core.rounds }
        ensures { value result ≡ slice_index core.k t };

    // The word whose bytes begin at `at`.
    fn read(b: &[u8], at: usize) -> Self
        requires { at + BYTES ≤ length b.now }
        ensures { value result ≡ number (take BYTES (drop at b.now)) };

    // The two sizes are the core's.
    ghost sizes: { Sizes core BYTES ROUNDS };

    // A word is small: the block step owes that what it works on fits the memory, whatever its words are.
    ghost room: { Room Self.row };
}
