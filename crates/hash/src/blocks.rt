// The chaining words after runs of blocks, for either hash. A state holds them as 64-bit numbers.
ghost use Rattle.std.specs.Prelude.{◌≡◌, ◌^◌, true, nat_lt};
ghost use Rattle.octets.specs.Every.{every};
ghost use Rattle.algorithm.specs.Hashes.{block_of};
ghost use Rattle.hash.specs.Run.{Run};
ghost use Rattle.hash.specs.State.{fit, words_of};

use crate::step;
use crate::table::Table;
use crate::width::{Width, width_of};
use algorithm::Hash;

// The same words in 32 bits each, which they fit.
fn narrowed(words: [u64; 8]) -> [u32; 8]
    requires { every (λ x. nat_lt x (2 ^ 32)) words ≡ true }
    ensures { result ≡ words }
{
    words.map(|word| word as u32)
}

// The same words in 64 bits each.
fn widened(words: [u32; 8]) -> [u64; 8]
    ensures { result ≡ words }
{
    words.map(u64::from)
}

// The chaining words after a run, by the width of the hash's words; `k` is lent by the caller.
fn after_run(hash: Hash, words: [u64; 8], run: &[u8], k: &Table) -> [u64; 8]
    requires { fit hash words ≡ true }
    ensures { result ≡ words_of hash words run.now }
{
    match width_of(hash) {
        Width::Narrow => widened(step::after_run(narrowed(words), run, k)),
        Width::Wide => step::after_run(words, run, k),
    }
}

// The chaining words after two runs, one after the other; either may be of no blocks. The table is made here, once, and lent to all
// blocks. The runs are taken by a loop, so that `after_run` is called in one place and is compiled into it, beside the table.
pub(crate) fn words_after<'a>(
    hash: Hash,
    words: [u64; 8],
    first: &'a [u8],
    second: &'a [u8],
) -> [u64; 8]
    requires { (fit hash words ≡ true) × (Run (block_of hash) first.now) × (Run (block_of hash) second.now) }
    ensures { result ≡ words_of hash (words_of hash words first.now) second.now }
{
    let k = Table::new();
    let mut v = words;
    let mut run = first;
    // A loop over `[first, second]` would keep both on the stack.
    for _ in 0..2usize {
        // Bound first: the borrow check does not take a call that answers into `v` itself.
        let n = after_run(hash, v, run, &k);
        v = n;
        run = second;
    }
    v
}
