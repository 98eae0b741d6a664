// The test cases of RFC 4231, in one call, verified, and in pieces.
use crate::say::{self, Name};
use crate::tagging::keyed;
use crate::work;
use algorithm::{Hash, Refusal};
use hmac::Keyed;
use std::{fmt, io};

// A message under a key, with the length of its tag and the name of the case.
#[derive(Clone, Copy)]
struct Case<'a> {
    hash: Hash,
    name: &'a str,
    key: &'a [u8],
    message: &'a [u8],
    size: usize,
}

impl<'a> fmt::Display for Case<'a> {
    fn fmt<W: fmt::Write>(&self, f: &mut fmt::Formatter<W>) -> fmt::Result {
        write!(f, "HMAC-{} of RFC 4231's {}", Name(self.hash), self.name)
    }
}

impl<'a> Case<'a> {
    fn started(self) -> Keyed {
        keyed::started(self.hash, self.key, self.size)
    }

    // The message in two halves.
    fn halves(self) -> (&'a [u8], &'a [u8]) {
        self.message.split_at(self.message.len() / 2)
    }

    fn tag(self, out: &mut [u8]) -> Result<(), Refusal> {
        hmac::tag_message(self.hash.into(), self.key, self.message, self.size, out)
    }

    fn verify(self, tag: &[u8]) -> Result<(), Refusal> {
        hmac::verify_message(self.hash.into(), self.key, self.message, self.size, tag)
    }
}

// A line on the tag of a keyed state.
fn tag(rt: &impl Print, keyed: Keyed, size: usize) -> io::Result<()> {
    say::output(rt, size, |out| hmac::tag(keyed, out))
}

fn in_one_call(rt: &impl Print, case: Case) -> io::Result<()> {
    print!(rt; "{case}, in one call: ")?;
    say::output(rt, case.size, |out| case.tag(out))
}

fn verified(rt: &impl Print, case: Case) -> io::Result<()> {
    let mut space = [0xa5; 66];
    let tag = &mut space[..case.size.min(66)];
    let _ = case.tag(tag);
    print!(rt; "{case}, verified: ")?;
    say::answer(rt, case.verify(tag))?;
    if let Some(first) = tag.first_mut() {
        *first ^= 1;
    }
    print!(rt; "{case}, verified with the first byte changed: ")?;
    say::answer(rt, case.verify(tag))
}

// A piece for a state that a byte after those that wait makes unsound, and what came back of it with that byte zero again.
fn refused(rt: &impl Print, keyed: Keyed, piece: &[u8]) -> io::Result<Keyed> {
    let handed = work::back(rt, keyed::with_last(keyed, 1), piece)?;
    Ok(keyed::with_last(handed, 0))
}

fn with_refused(rt: &impl Print, case: Case) -> io::Result<()> {
    print!(rt; "{case}, cut in the middle with a refused piece between: ")?;
    let (first, second) = case.halves();
    let keyed = refused(rt, work::fed(case.started(), first), second)?;
    print!(rt; ", then ")?;
    tag(rt, work::fed(keyed, second), case.size)
}

fn byte_by_byte(rt: &impl Print, case: Case) -> io::Result<()> {
    print!(rt; "{case}, byte by byte: ")?;
    let keyed = work::in_pieces(case.started(), case.message, 1);
    tag(rt, keyed, case.size)
}

fn asked_between(rt: &impl Print, case: Case) -> io::Result<()> {
    let (first, second) = case.halves();
    let keyed = work::fed(case.started(), first);
    print!(rt; "{case}, the tag of the first half: ")?;
    tag(rt, keyed, case.size)?;
    print!(rt; "{case}, the tag after the second half: ")?;
    tag(rt, work::fed(keyed, second), case.size)
}

fn each(rt: &impl Print, case: Case) -> io::Result<()> {
    in_one_call(rt, case)?;
    verified(rt, case)?;
    with_refused(rt, case)?;
    byte_by_byte(rt, case)?;
    asked_between(rt, case)
}

const CASES: [(&str, &[u8], &[u8]); 7] = [
    ("case 1", &[0x0b; 20], b"Hi There"),
    ("case 2", b"Jefe", b"what do ya want for nothing?"),
    ("case 3", &[0xaa; 20], &[0xdd; 50]),
    (
        "case 4",
        &[
            1, 2, 3, 4, 5, 6, 7, 8, 9, 10, 11, 12, 13, 14, 15, 16, 17, 18, 19, 20, 21, 22, 23, 24,
            25,
        ],
        &[0xcd; 50],
    ),
    ("case 5", &[0x0c; 20], b"Test With Truncation"),
    (
        "case 6",
        &[0xaa; 131],
        b"Test Using Larger Than Block-Size Key - Hash Key First",
    ),
    (
        "case 7",
        &[0xaa; 131],
        b"This is a test using a larger than block-size key and a larger than block-size data. The key needs to be hashed before being used by the HMAC algorithm.",
    ),
];

pub(crate) fn cases(rt: &impl Print, hash: Hash) -> io::Result<()> {
    for (name, key, message) in CASES {
        // The RFC prints 16 bytes of the tag of case 5: a tag that SHA-256 gives and SHA-512 does not.
        let size = match hash {
            Hash::Sha256 if name == "case 5" => 16,
            hash => algorithm::digest_size(hash),
        };
        each(
            rt,
            Case {
                hash,
                name,
                key,
                message,
                size,
            },
        )?;
    }
    Ok(())
}
