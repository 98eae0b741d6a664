// The keyed state that a start makes and each piece changes in place, and the two states of the hash in it.
ghost use Rattle.std.specs.Prelude.{◌≡◌};
ghost use Rattle.hmac.specs.Keyed.{inner_of, outer_of, joined};

use algorithm::Hash;
use hash::{LARGEST_BLOCK, State};

// The hash and the length of the tag that it was made for; the inner hash at work, of which the first block counts; and the outer
// words, which have taken their block and nothing more.
#[derive(Clone, Copy, PartialEq, Eq)]
pub struct Keyed {
    pub hash: Hash,
    pub tag_length: usize,
    pub words: [u64; 8],
    pub count: u64,
    pub waiting: [u8; LARGEST_BLOCK],
    pub outer: [u64; 8],
}

// The bytes that the inner hash has taken, the block of the inner pad among them: the length field counts them all.
fn inner_count(keyed: Keyed) -> u64
    ensures { result ≡ keyed.count }
{
    keyed.count
}

// The inner hash at work.
pub(crate) fn inner(keyed: Keyed) -> State
    ensures { result ≡ inner_of keyed }
{
    let words = keyed.words;
    let waiting = keyed.waiting;
    State {
        hash: keyed.hash,
        words,
        count: inner_count(keyed),
        waiting,
    }
}

// The outer hash, which has taken its block.
pub(crate) fn outer(keyed: Keyed) -> State
    ensures { result ≡ outer_of keyed }
{
    let words = keyed.outer;
    State {
        hash: keyed.hash,
        words,
        count: algorithm::block_size(keyed.hash) as u64,
        waiting: [0; LARGEST_BLOCK],
    }
}

// An inner state with a tag length and outer words.
pub(crate) fn join(state: State, tag_length: usize, outer: [u64; 8]) -> Keyed
    ensures { result ≡ joined state tag_length outer }
{
    let words = state.words;
    let waiting = state.waiting;
    Keyed {
        hash: state.hash,
        tag_length,
        words,
        count: state.count,
        waiting,
        outer,
    }
}
