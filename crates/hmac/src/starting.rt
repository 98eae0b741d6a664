// The keyed start.
ghost use Rattle.std.specs.Prelude.{◌≡◌, ◌≤◌, length};
ghost use Rattle.algorithm.specs.Refusals.{most_bytes};
ghost use Rattle.hmac.specs.Keyed.{fresh_keyed, zero_keyed};
ghost use Rattle.hmac.specs.Calls.{started_by, StartOutcome};

use crate::keyed::Keyed;
use algorithm::{Hash, Refusal};
use hash::LARGEST_BLOCK;

// The keyed state that has taken its key.
fn keyed_by(hash: Hash, key: &[u8], tag_length: usize) -> Keyed
    requires { length key.now ≤ most_bytes }
    ensures { result ≡ fresh_keyed hash key.now tag_length }
{
    let form = crate::form::block_form(hash, key);
    let inner = crate::form::after_pad(hash, &form, 0x36);
    let outer = crate::form::after_pad(hash, &form, 0x5c);
    crate::keyed::join(inner, tag_length, outer.words)
}

// The zeros that a start stands for which is refused; they name hash 1.
impl Default for Keyed {
    ghost is_default = { λ keyed. keyed ≡ zero_keyed };

    fn default() -> Self {
        Keyed {
            hash: Hash::Sha256,
            tag_length: 0,
            words: [0; 8],
            count: 0,
            waiting: [0; LARGEST_BLOCK],
            outer: [0; 8],
        }
    }
}

// A start under a key for the hash of this number and tags of this length; 2 where there is no such hash, 3 where the key is too
// long, 5 where the length is out of range.
pub fn start(hash_number: u32, key: &[u8], tag_length: usize) -> Result<Keyed, Refusal>
    ensures { StartOutcome hash_number key.now tag_length (started_by result) }
{
    let hash = Hash::try_from(hash_number)?;
    if algorithm::MOST_BYTES < key.len() as u64 {
        return Err(Refusal::KeyTooLong);
    }
    if !crate::lengths::length_allowed(hash, tag_length) {
        return Err(Refusal::TagLengthOutOfRange);
    }
    Ok(keyed_by(hash, key, tag_length))
}
