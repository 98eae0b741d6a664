// The end: the padding, and the digest's bytes.
ghost use Rattle.std.specs.Prelude.{◌≡◌, ◌+◌, ◌-◌, ◌<◌, ◌≤◌, ◌∷◌, ◌++◌, length, take, replicate};
ghost use Rattle.octets.specs.Number.{bytes};
ghost use Rattle.octets.specs.Zeros.{zeros_to};
ghost use Rattle.algorithm.specs.Answers.{number};
ghost use Rattle.algorithm.specs.Hashes.{block_of};
ghost use Rattle.hash.specs.Description.{describe};
ghost use Rattle.hash.specs.Sha2.{word_size, spell};
ghost use Rattle.hash.specs.State.{last_words};
ghost use Rattle.hash.specs.Calls.{FinishOutcome};
ghost use Rattle.hash.specs.Inside.{padded_end, Ends};

use crate::state::{LARGEST_BLOCK, State};
use crate::width::{Width, width_of};
use crate::words::Word;
use algorithm::{Hash, Refusal};

// The bytes of a word.
fn word_size(hash: Hash) -> usize
    ensures { (result ≡ word_size (describe hash).core) × (result ≤ 8) }
{
    match width_of(hash) {
        Width::Narrow => <u32 as Word>::BYTES,
        Width::Wide => <u64 as Word>::BYTES,
    }
}

// Where the padded rest ends: at one block or at two. A block has sixteen words, and the length field two.
fn padded_end(hash: Hash, at: usize) -> usize
    requires { at < block_of hash }
    ensures { result ≡ padded_end (describe hash).core at }
{
    let word = word_size(hash);
    let size = 16 * word;
    if at + 1 + 2 * word <= size {
        return size;
    }
    2 * size
}

// Writes the waiting bytes with the padding after them, up to `end`, into zeros. The length is below 2^64, so its last eight bytes say
// it all.
fn put_last_blocks(last: &mut [u8; 2 * LARGEST_BLOCK], waiting: &[u8], end: usize, bits: u64)
    requires { (last.old ≡ replicate 256 0) × (length waiting.now + 9 ≤ end) × (end ≤ 256) }
    ensures last_len { length last.new ≡ 256 }
    ensures last_after { take end last.new ≡ waiting.now ++ (0x80 ∷ replicate (end - (length waiting.now + 9)) 0 ++ bytes 8 bits) }
{
    let at = waiting.len();
    crate::place::put_at(last, 0, waiting);
    last[at] = 0x80;
    crate::place::put_at(last, end - 8, &octets::eight_bytes(bits));
}

// The words after the padded rest, which is a run.
fn last_words(state: State) -> [u64; 8]
    requires { Ends state }
    ensures { result ≡ last_words state }
{
    let at = crate::state::waiting_count(&state);
    let end = padded_end(state.hash, at);
    let mut last = [0; 2 * LARGEST_BLOCK];
    put_last_blocks(&mut last, &state.waiting[..at], end, 8 * state.count);
    crate::blocks::words_after(state.hash, state.words, &last[..end], b"")
}

// The bytes of the words, with zeros after them.
fn spelled(hash: Hash, words: [u64; 8]) -> [u8; 64]
    ensures { result ≡ zeros_to 64 (spell (word_size (describe hash).core) words) }
{
    let size = word_size(hash);
    let mut out = [0; 64];
    for (i, word) in words.iter().enumerate() {
        let bytes = octets::eight_bytes(*word);
        crate::place::put_at(&mut out, i * size, &bytes[8 - size..]);
    }
    out
}

// The digest of the bytes taken so far, which does not use the state up; 10 where the state is not sound, 6 where the output is
// not of a digest's size.
pub fn finish(state: State, out: &mut [u8]) -> Result<(), Refusal>
    ensures { FinishOutcome state out.old (number result) out.new }
{
    if !crate::soundness::sound(state) {
        return Err(Refusal::StateNotSound);
    }
    if out.len() != algorithm::digest_size(state.hash) {
        return Err(Refusal::WrongSize);
    }
    let bytes = spelled(state.hash, last_words(state));
    octets::copy_prefix(&bytes, out);
    Ok(())
}
