// Bytes of any length from a key, block after block.
ghost use Rattle.std.specs.Prelude.{◌≡◌, [], ◌∷◌, ◌++◌, length};
ghost use Rattle.octets.specs.Zeros.{zeros_to};
ghost use Rattle.algorithm.specs.Answers.{number};
ghost use Rattle.algorithm.specs.Hashes.{hash_of};
ghost use Rattle.hmac.specs.Keyed.{after_keyed, keyed_tag};
ghost use Rattle.hkdf.specs.Hkdf.{expand_of};
ghost use Rattle.hkdf.specs.Calls.{ExpandOutcome};
ghost use Rattle.hkdf.specs.Inside.{Stretchable, Expandable};

use algorithm::{Hash, Refusal};
use hmac::Keyed;

// One block, the tag of the last one, info and the counter, with zeros after it.
fn stretch(keyed: Keyed, last: &[u8], info: &[u8], counter: u8) -> [u8; 64]
    requires { Stretchable keyed last.now info.now }
    ensures { result ≡ zeros_to 64 (keyed_tag (after_keyed keyed (last.now ++ (info.now ++ (counter ∷ []))))) }
{
    let mut after = keyed;
    hmac::update(&mut after, last).unwrap();
    hmac::update(&mut after, info).unwrap();
    hmac::update(&mut after, &[counter]).unwrap();
    let mut block = [0u8; 64];
    hmac::tag(after, &mut block[..keyed.tag_length]).unwrap();
    block
}

// The output, block after block. A function of its own, so that the checks come before the space for the keyed state is cleared.
#[inline(never)]
fn fill(hash_number: u32, size: usize, prk: &[u8], info: &[u8], out: &mut [u8])
    requires { Expandable hash_number size prk.now info.now out.old }
    ensures { out.new ≡ expand_of (hash_of hash_number) prk.now info.now (length out.old) }
{
    // The start under the key, for tags of a digest's size, is made once for all blocks.
    let keyed = hmac::start(hash_number, prk, size).unwrap();
    // Each block goes after those that are done, and is made from the last of them; before the first there is none. The last block is
    // cut to the rest.
    for i in 0..out.len().div_ceil(size) {
        let (done, rest) = out.split_at_mut(i * size);
        let last = &done[done.len().saturating_sub(size)..];
        let block = stretch(keyed, last, info, i as u8 + 1);
        octets::copy_prefix(&block[..size], rest);
    }
}

// As many bytes as the output has, from a key and info; 2 where the number names no hash, 3 where the key is too long, 7 where it is
// shorter than a digest, 8 where info is too long, 9 where the output is longer than 255 digests.
pub fn expand(hash_number: u32, prk: &[u8], info: &[u8], out: &mut [u8]) -> Result<(), Refusal>
    ensures { ExpandOutcome hash_number prk.now info.now out.old (number result) out.new }
{
    let hash = Hash::try_from(hash_number)?;
    let size = algorithm::digest_size(hash);
    if algorithm::MOST_BYTES < prk.len() as u64 {
        return Err(Refusal::KeyTooLong);
    }
    if prk.len() < size {
        return Err(Refusal::PrkTooShort);
    }
    if algorithm::MOST_INFO < info.len() {
        return Err(Refusal::InfoTooLong);
    }
    if algorithm::MOST_DIGESTS * size < out.len() {
        return Err(Refusal::OutputTooLong);
    }
    fill(hash_number, size, prk, info, out);
    Ok(())
}
