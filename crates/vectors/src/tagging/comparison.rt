// Presented tags: right ones, wrong ones, and those of another length.
use crate::say::{self, Name};
use crate::tagging::asked::{self, Asked};
use crate::tagging::keyed;
use algorithm::Hash;
use hmac::Keyed;
use std::io;

// Whether a presented tag is right.
#[derive(Clone, Copy)]
struct Verify<'a>(&'a [u8]);

impl Asked for Verify<'_> {
    const NAME: &'static str = "verify";

    fn of_state<P: Print>(self, rt: &P, keyed: Keyed) -> io::Result<()> {
        say::answer(rt, hmac::verify(keyed, self.0))
    }

    fn of_message<P: Print>(self, rt: &P, hash_number: u32, tag_length: usize) -> io::Result<()> {
        let answered = hmac::verify_message(hash_number, b"Jefe", b"abc", tag_length, self.0);
        say::answer(rt, answered)
    }
}

// The length of the tag, how many bytes of the full tag (with a5 after it) are presented, and how many first ones are unchanged.
const ROWS: [[usize; 3]; 32] = [
    [0, 0, 0],
    [1, 1, 1],
    [15, 15, 15],
    [15, 16, 16],
    [16, 0, 0],
    [16, 1, 1],
    [16, 15, 15],
    [16, 16, 0],
    [16, 16, 15],
    [16, 16, 16],
    [16, 17, 17],
    [16, 32, 32],
    [31, 31, 31],
    [32, 0, 0],
    [32, 16, 16],
    [32, 31, 31],
    [32, 32, 0],
    [32, 32, 16],
    [32, 32, 31],
    [32, 32, 32],
    [32, 33, 33],
    [32, 64, 64],
    [33, 32, 32],
    [33, 33, 33],
    [64, 32, 32],
    [64, 63, 63],
    [64, 64, 16],
    [64, 64, 32],
    [64, 64, 63],
    [64, 64, 64],
    [64, 65, 64],
    [65, 65, 64],
];

pub(crate) fn rows(rt: &impl Print, hash: Hash) -> io::Result<()> {
    for [tag_length, size, unchanged] in ROWS {
        print!(rt;
            "HMAC-{} of \"abc\", tag length {tag_length}, presented {size} bytes, the first {unchanged} unchanged: ",
            Name(hash),
        )?;
        let tag = keyed::changed_tag(keyed::taken(hash), unchanged);
        asked::each(rt, Verify(&tag[..size.min(66)]), hash, tag_length)?;
    }
    Ok(())
}
