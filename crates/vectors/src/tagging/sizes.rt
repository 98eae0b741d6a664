// Tag lengths inside and outside their range, and outputs of that and of other sizes.
use crate::say::{self, Name};
use crate::tagging::asked::{self, Asked};
use algorithm::Hash;
use hmac::Keyed;
use std::io;

// A tag into an output of some bytes.
#[derive(Clone, Copy)]
struct Tag(usize);

impl Asked for Tag {
    const NAME: &'static str = "tag";

    fn of_state<P: Print>(self, rt: &P, keyed: Keyed) -> io::Result<()> {
        say::output(rt, self.0, |out| hmac::tag(keyed, out))
    }

    fn of_message<P: Print>(self, rt: &P, hash_number: u32, tag_length: usize) -> io::Result<()> {
        say::output(
            rt,
            self.0,
            |out| hmac::tag_message(hash_number, b"Jefe", b"abc", tag_length, out),
        )
    }
}

// The length of the tag, and the size of the output.
const ROWS: [[usize; 2]; 28] = [
    [0, 0],
    [0, 16],
    [1, 1],
    [15, 15],
    [15, 16],
    [16, 0],
    [16, 15],
    [16, 16],
    [16, 17],
    [16, 32],
    [17, 17],
    [31, 31],
    [31, 32],
    [32, 0],
    [32, 31],
    [32, 32],
    [32, 33],
    [32, 64],
    [33, 32],
    [33, 33],
    [33, 34],
    [63, 63],
    [64, 32],
    [64, 63],
    [64, 64],
    [64, 65],
    [65, 64],
    [65, 65],
];

pub(crate) fn rows(rt: &impl Print, hash: Hash) -> io::Result<()> {
    for [tag_length, size] in ROWS {
        print!(rt;
            "HMAC-{} of \"abc\", tag length {tag_length}, into {size} bytes: ",
            Name(hash)
        )?;
        asked::each(rt, Tag(size), hash, tag_length)?;
    }
    Ok(())
}
