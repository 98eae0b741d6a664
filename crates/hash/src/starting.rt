// The start of work in pieces.
ghost use Rattle.std.specs.Prelude.{◌≡◌};
ghost use Rattle.hash.specs.State.{zero_state};
ghost use Rattle.hash.specs.Calls.{started_by, StartOutcome, FreshOutcome};

use crate::state::{LARGEST_BLOCK, State};
use algorithm::{Hash, Refusal};

// The state of a hash that has taken no byte.
pub fn fresh(hash: Hash) -> State
    ensures { FreshOutcome hash result }
{
    State {
        hash,
        words: crate::table::first_words(hash),
        count: 0,
        waiting: [0; LARGEST_BLOCK],
    }
}

// The zeros that a start stands for which is refused; they name hash 1.
impl Default for State {
    ghost is_default = { λ state. state ≡ zero_state };

    fn default() -> Self {
        State {
            words: [0; 8],
            ..fresh(Hash::Sha256)
        }
    }
}

// A start for the hash of this number; 2 where there is none.
pub fn start(hash_number: u32) -> Result<State, Refusal>
    ensures { StartOutcome hash_number (started_by result) }
{
    let hash = Hash::try_from(hash_number)?;
    Ok(fresh(hash))
}
