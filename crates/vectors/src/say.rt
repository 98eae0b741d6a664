// What the program writes: words, the names of hashes, and what a call answers.
use algorithm::{Hash, Refusal};
use octets::Hex;
use std::{fmt, io};

// Words in hexadecimal, each after a space.
#[derive(Clone, Copy)]
pub(crate) struct Words(pub(crate) [u64; 8]);

impl fmt::Display for Words {
    fn fmt<W: fmt::Write>(&self, f: &mut fmt::Formatter<W>) -> fmt::Result {
        for word in self.0 {
            write!(f, " {word:016x}")?;
        }
        Ok(())
    }
}

// The name of a hash.
#[derive(Clone, Copy)]
pub(crate) struct Name(pub(crate) Hash);

impl fmt::Display for Name {
    fn fmt<W: fmt::Write>(&self, f: &mut fmt::Formatter<W>) -> fmt::Result {
        f.write_str(match self.0 {
            Hash::Sha256 => "SHA-256",
            Hash::Sha512 => "SHA-512",
        })
    }
}

// A line with the number of an answer.
pub(crate) fn answer(rt: &impl Print, answered: Result<(), Refusal>) -> io::Result<()> {
    println!(rt; "{}", algorithm::number(answered))
}

// The number of a call and its output, of so many bytes and at most 66, which holds a5 everywhere before.
pub(crate) fn output<F: FnOnce(&mut [u8]) -> Result<(), Refusal>>(
    rt: &impl Print,
    size: usize,
    call: F,
) -> io::Result<()>
    requires { F.IsAlwaysCallable call }
{
    let mut space = [0xa5; 66];
    let out = &mut space[..size.min(66)];
    let answered = call(out);
    println!(rt; "{}, {}", algorithm::number(answered), Hex(out))
}
