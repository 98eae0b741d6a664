// Words of 32 bits (FIPS 180-4, section 4.1.2).
ghost use Rattle.std.specs.Prelude.{◌≡◌, ◌<◌};
ghost use Rattle.hash.specs.Description.{narrow};
ghost use Rattle.std.proofs.Common.{lit≤};
ghost use Rattle.hash.specs.Sizes.Laws.{narrow_sizes};

use crate::table::{Table, upper};
use crate::words::Word;
use std::num::wrapping_add_u32;

impl Word for u32 {
    ghost core = { narrow };

    ghost value = { λ x. x };

    ghost BYTES = { 4 };

    const BYTES: usize = 4;

    ghost ROUNDS = { 64 };

    const ROUNDS: usize = 64;

    fn add(self, other: u32) -> u32 {
        wrapping_add_u32(self, other)
    }

    // Ch and Maj have one operation less than in the standard, for speed.
    fn ch(x: u32, y: u32, z: u32) -> u32 {
        (x & (y ^ z)) ^ z
    }

    fn maj(x: u32, y: u32, z: u32) -> u32 {
        ((x ^ y) & (y ^ z)) ^ y
    }

    // The rotations of the four sigma functions are nested, for speed: the innermost word is rotated by 22 - 13, by 13 - 2 and by 2,
    // which is by 22.
    fn big0(x: u32) -> u32 {
        (x ^ (x ^ x.rotate_right(22 - 13)).rotate_right(13 - 2)).rotate_right(2)
    }

    fn big1(x: u32) -> u32 {
        (x ^ (x ^ x.rotate_right(25 - 11)).rotate_right(11 - 6)).rotate_right(6)
    }

    fn small0(x: u32) -> u32 {
        (x ^ x.rotate_right(18 - 7)).rotate_right(7) ^ (x >> 3)
    }

    fn small1(x: u32) -> u32 {
        (x ^ x.rotate_right(19 - 17)).rotate_right(17) ^ (x >> 10)
    }

    fn constant(k: &Table, t: usize) -> u32 {
        upper(k.at(t))
    }

    fn read(b: &[u8], at: usize) -> u32 {
        u32::from_be_bytes([b[at], b[at + 1], b[at + 2], b[at + 3]])
    }

    ghost sizes = { narrow_sizes };

    ghost room = { record { size = lit≤ tt; align = lit≤ tt } };
}
