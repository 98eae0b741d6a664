// Keyed states, as they take pieces and end, and tags of them.
use crate::made;
use crate::say::{self, Words};
use crate::work::{self, Shown, Work};
use algorithm::{Hash, Refusal};
use hash::State;
use hmac::Keyed;
use std::{fmt, io};

impl Work for Keyed {
    // For full tags, with outer words of its own, 9 to 16.
    fn own(hash: Hash, count: u64) -> Keyed {
        made::keyed(State::own(hash, count), [9, 10, 11, 12, 13, 14, 15, 16])
    }

    fn is_sound(self) -> bool {
        hmac::sound(self)
    }

    fn update(&mut self, piece: &[u8]) -> Result<(), Refusal> {
        hmac::update(self, piece)
    }

    fn size(self) -> usize {
        self.tag_length
    }

    // The tag, and its comparison with the full tag so far and with one that differs in the last byte.
    fn end<P: Print>(self, rt: &P, size: usize) -> io::Result<()> {
        print!(rt; "  tag: ")?;
        say::output(rt, size, |out| hmac::tag(self, out))?;
        print!(rt; "  verify: ")?;
        say::answer(rt, presented(self, size, size))?;
        print!(rt; "  verify with the last byte changed: ")?;
        say::answer(rt, presented(self, size, size.saturating_sub(1)))
    }

    fn show<W: fmt::Write>(self, f: &mut fmt::Formatter<W>) -> fmt::Result {
        let words = self.words;
        let waiting = self.waiting;
        let inner = Shown(State {
            hash: self.hash,
            words,
            count: self.count,
            waiting,
        });
        write!(
            f,
            "HMAC-{inner}, outer words{}, tag length {}",
            Words(self.outer),
            self.tag_length
        )
    }
}

// A start, or zeros where it is refused.
pub(crate) fn started(hash: Hash, key: &[u8], tag_length: usize) -> Keyed {
    hmac::start(hash.into(), key, tag_length).unwrap_or_default()
}

// The same keyed state with another byte at its last place, where none waits.
pub(crate) fn with_last(mut keyed: Keyed, byte: u8) -> Keyed {
    keyed.waiting[127] = byte;
    keyed
}

// A start for full tags under the key "Jefe", after the message "abc".
pub(crate) fn taken(hash: Hash) -> Keyed {
    let size = algorithm::digest_size(hash);
    work::fed(started(hash, b"Jefe", size), b"abc")
}

// The full tag of a keyed state with a5 after it, or a5 everywhere where it is refused; every byte after the unchanged ones is another.
pub(crate) fn changed_tag(keyed: Keyed, unchanged: usize) -> [u8; 66] {
    let tag_length = algorithm::digest_size(keyed.hash);
    let mut tag = [0xa5; 66];
    let _ = hmac::tag(
        Keyed {
            tag_length,
            ..keyed
        },
        &mut tag[..tag_length.min(66)],
    );
    for byte in tag.iter_mut().skip(unchanged) {
        *byte ^= 1;
    }
    tag
}

// What a presented tag of some bytes is answered, at most 66, of which so many first ones are unchanged.
fn presented(keyed: Keyed, size: usize, unchanged: usize) -> Result<(), Refusal> {
    let tag = changed_tag(keyed, unchanged);
    hmac::verify(keyed, &tag[..size.min(66)])
}
