// States of a hash, as they take pieces and end.
use crate::made;
use crate::say::{self, Name, Words};
use crate::work::Work;
use algorithm::{Hash, Refusal};
use hash::State;
use octets::Hex;
use std::{fmt, io};

impl Work for State {
    // Its words are 1 to 8, and as many bytes wait as its count asks for, 1 and onward.
    fn own(hash: Hash, count: u64) -> State {
        let waits = count % algorithm::block_size(hash) as u64;
        let mut waiting = [0; 128];
        for (byte, value) in waiting.iter_mut().zip(1..=127).take(waits as usize) {
            *byte = value;
        }
        State {
            hash,
            words: [1, 2, 3, 4, 5, 6, 7, 8],
            count,
            waiting,
        }
    }

    fn is_sound(self) -> bool {
        hash::sound(self)
    }

    fn update(&mut self, piece: &[u8]) -> Result<(), Refusal> {
        hash::update(self, piece)
    }

    fn size(self) -> usize {
        algorithm::digest_size(self.hash)
    }

    fn end<P: Print>(self, rt: &P, size: usize) -> io::Result<()> {
        print!(rt; "  finish: ")?;
        say::output(rt, size, |out| hash::finish(self, out))
    }

    fn show<W: fmt::Write>(self, f: &mut fmt::Formatter<W>) -> fmt::Result {
        write!(
            f,
            "{} state, words{}, count {}, waiting {}",
            Name(self.hash),
            Words(self.words),
            self.count,
            Hex(&self.waiting),
        )
    }
}

// A start, or zeros where it is refused.
pub(crate) fn started(hash: Hash) -> State {
    hash::start(hash.into()).unwrap_or_default()
}
