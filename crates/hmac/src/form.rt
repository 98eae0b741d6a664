// The block form of a key, its pads, and the hash after a pad.
ghost use Rattle.std.specs.Prelude.{◌≡◌, ◌≤◌, length, take};
ghost use Rattle.algorithm.specs.Hashes.{block_of};
ghost use Rattle.algorithm.specs.Refusals.{most_bytes};
ghost use Rattle.hash.specs.Digest.{digest_of};
ghost use Rattle.hash.specs.State.{largest_block, fresh_of, after_of};
ghost use Rattle.octets.specs.Zeros.{zeros_to};
ghost use Rattle.hmac.specs.Form.{form_of, masked};

use algorithm::Hash;
use hash::{LARGEST_BLOCK, State};

// The bytes, and zeros after them.
fn copied(bytes: &[u8]) -> [u8; LARGEST_BLOCK]
    requires { length bytes.now ≤ largest_block }
    ensures { result ≡ zeros_to largest_block bytes.now }
{
    let mut out = [0u8; LARGEST_BLOCK];
    octets::copy_prefix(bytes, &mut out);
    out
}

// The digest of a key, and zeros after it.
#[inline(never)]
fn digested(hash: Hash, key: &[u8]) -> [u8; LARGEST_BLOCK]
    requires { length key.now ≤ most_bytes }
    ensures { result ≡ zeros_to largest_block (digest_of hash key.now) }
{
    let mut state = hash::fresh(hash);
    hash::update(&mut state, key).unwrap();
    let digest = crate::ending::ended(state);
    copied(&digest)
}

// The block form of a key, and zeros after it. A key of exactly a block is used as it is.
pub(crate) fn block_form(hash: Hash, key: &[u8]) -> [u8; LARGEST_BLOCK]
    requires { length key.now ≤ most_bytes }
    ensures { result ≡ zeros_to largest_block (form_of hash key.now) }
{
    if key.len() <= algorithm::block_size(hash) {
        copied(key)
    } else {
        digested(hash, key)
    }
}

// Each byte XOR x.
fn mask(mut form: [u8; LARGEST_BLOCK], x: u8) -> [u8; LARGEST_BLOCK]
    ensures { result ≡ masked x form }
{
    for byte in &mut form {
        *byte ^= x;
    }
    form
}

// The hash after the pad of a form.
#[inline(never)]
pub(crate) fn after_pad(hash: Hash, form: &[u8; LARGEST_BLOCK], x: u8) -> State
    ensures { result ≡ after_of (fresh_of hash) (take (block_of hash) (masked x form.now)) }
{
    let pad = mask(*form, x);
    let size = algorithm::block_size(hash);
    let mut state = hash::fresh(hash);
    hash::update(&mut state, &pad[..size]).unwrap();
    state
}
