// The test of a sound keyed state.
ghost use Rattle.hmac.specs.Calls.{SoundOutcome};

use crate::keyed::Keyed;

// Whether a keyed state is sound: its inner and its outer hash are, its first block is counted, and its tag length is in range.
pub fn sound(keyed: Keyed) -> bool
    ensures { SoundOutcome keyed result }
{
    hash::sound(crate::keyed::inner(keyed))
        && hash::sound(crate::keyed::outer(keyed))
        && algorithm::block_size(keyed.hash) as u64 <= keyed.count
        && crate::lengths::length_allowed(keyed.hash, keyed.tag_length)
}
