// Words of 64 bits (FIPS 180-4, section 4.1.3).
ghost use Rattle.std.specs.Prelude.{◌≡◌, ◌<◌};
ghost use Rattle.hash.specs.Description.{wide};
ghost use Rattle.std.proofs.Common.{lit≤};
ghost use Rattle.hash.specs.Sizes.Laws.{wide_sizes};

use crate::table::Table;
use crate::words::Word;
use std::num::wrapping_add_u64;

impl Word for u64 {
    ghost core = { wide };

    ghost value = { λ x. x };

    ghost BYTES = { 8 };

    const BYTES: usize = 8;

    ghost ROUNDS = { 80 };

    const ROUNDS: usize = 80;

    fn add(self, other: u64) -> u64 {
        wrapping_add_u64(self, other)
    }

    // Ch and Maj have one operation less than in the standard, for speed.
    fn ch(x: u64, y: u64, z: u64) -> u64 {
        (x & (y ^ z)) ^ z
    }

    fn maj(x: u64, y: u64, z: u64) -> u64 {
        ((x ^ y) & (y ^ z)) ^ y
    }

    // The rotations of the four sigma functions are nested, for speed: the innermost word is rotated by 39 - 34, by 34 - 28 and by
    // 28, which is by 39.
    fn big0(x: u64) -> u64 {
        (x ^ (x ^ x.rotate_right(39 - 34)).rotate_right(34 - 28)).rotate_right(28)
    }

    fn big1(x: u64) -> u64 {
        (x ^ (x ^ x.rotate_right(41 - 18)).rotate_right(18 - 14)).rotate_right(14)
    }

    fn small0(x: u64) -> u64 {
        (x ^ x.rotate_right(8 - 1)).rotate_right(1) ^ (x >> 7)
    }

    fn small1(x: u64) -> u64 {
        (x ^ x.rotate_right(61 - 19)).rotate_right(19) ^ (x >> 6)
    }

    fn constant(k: &Table, t: usize) -> u64 {
        k.at(t)
    }

    fn read(b: &[u8], at: usize) -> u64 {
        u64::from_be_bytes([
            b[at],
            b[at + 1],
            b[at + 2],
            b[at + 3],
            b[at + 4],
            b[at + 5],
            b[at + 6],
            b[at + 7],
        ])
    }

    ghost sizes = { wide_sizes };

    ghost room = { record { size = lit≤ tt; align = lit≤ tt } };
}
