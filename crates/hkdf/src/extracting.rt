// The key that a salt and key material make.
ghost use Rattle.algorithm.specs.Answers.{number};
ghost use Rattle.hkdf.specs.Calls.{ExtractOutcome};

use algorithm::{Hash, Refusal};

// The tag of the key material under the salt, or under a digest's zeros for an empty one; 2 where the number names no hash, 3 where
// the salt is too long, 4 where the key material is, 6 where the output is not of a digest's size.
pub fn extract(hash_number: u32, salt: &[u8], ikm: &[u8], out: &mut [u8]) -> Result<(), Refusal>
    ensures { ExtractOutcome hash_number salt.now ikm.now out.old (number result) out.new }
{
    let hash = Hash::try_from(hash_number)?;
    let size = algorithm::digest_size(hash);
    let zeros = [0u8; 64];
    let key = if salt.is_empty() {
        &zeros[..size]
    } else {
        salt
    };
    hmac::tag_message(hash_number, key, ikm, size, out)
}
