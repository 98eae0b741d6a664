// The test of a sound state.
ghost use Rattle.std.specs.Prelude.{◌≡◌, ℕ, ◌^◌, ltb, nat_lt};
ghost use Rattle.octets.specs.Every.{every};
ghost use Rattle.hash.specs.State.{fit};
ghost use Rattle.hash.specs.Calls.{SoundOutcome};

use crate::state::State;
use crate::width::{Width, width_of};
use algorithm::Hash;

// The bits of all words together: they fit a width exactly where each word does.
fn gathered(words: [u64; 8]) -> u64
    ensures { (w : ℕ) → nat_lt result (2 ^ w) ≡ every (λ x. ltb x (2 ^ w)) words }
{
    let mut bits: u64 = 0;
    for word in words {
        bits |= word;
    }
    bits
}

// Whether every word fits the hash's width: in 64 bits any does.
fn words_fit(hash: Hash, words: [u64; 8]) -> bool
    ensures { result ≡ fit hash words }
{
    let bits = gathered(words);
    match width_of(hash) {
        Width::Narrow => bits < 0x1_0000_0000,
        Width::Wide => true,
    }
}

// The test of a lent state, which copies nothing.
pub(crate) fn is_sound(state: &State) -> bool
    ensures { SoundOutcome state.now result }
{
    let at = crate::state::waiting_count(state);
    state.count <= algorithm::MOST_BYTES
        && octets::all_zero(&state.waiting[at..])
        && words_fit(state.hash, state.words)
}

// Whether a state is sound: its count within the limit, zeros after the bytes that wait, and each word within its width.
pub fn sound(state: State) -> bool
    ensures { SoundOutcome state result }
{
    is_sound(&state)
}
