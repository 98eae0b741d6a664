// Work in pieces: the state that a start makes, and that each piece changes in place.
ghost use Rattle.std.specs.Prelude.{◌≡◌};
ghost use Rattle.hash.specs.State.{waiting_count};

use algorithm::Hash;

// The places of the waiting array: the bytes of the largest block.
pub const LARGEST_BLOCK: usize = 128;

// The hash that it was made for, the chaining words, how many bytes it took, and those of them that wait for a full block, with
// zeros after them. A block of either hash fits the waiting array.
#[derive(Clone, Copy, PartialEq, Eq)]
pub struct State {
    pub hash: Hash,
    pub words: [u64; 8],
    pub count: u64,
    pub waiting: [u8; LARGEST_BLOCK],
}

// How many bytes wait.
pub(crate) fn waiting_count(state: &State) -> usize
    ensures { result ≡ waiting_count state.now }
{
    (state.count % algorithm::block_size(state.hash) as u64) as usize
}
