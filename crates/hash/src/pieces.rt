// One piece more. Whole blocks are read straight from the piece: only what fills no block, and what tops up bytes that wait, is
// copied.
ghost use Rattle.std.specs.Prelude.{◌≡◌, ◌+◌, ◌≤◌, true, length};
ghost use Rattle.std.proofs.Math.Seq.{paste};
ghost use Rattle.algorithm.specs.Answers.{number};
ghost use Rattle.algorithm.specs.Refusals.{most_bytes};
ghost use Rattle.algorithm.specs.Hashes.{block_of};
ghost use Rattle.hash.specs.Run.{Run};
ghost use Rattle.hash.specs.State.{largest_block, fit, words_of, placed, after_of};
ghost use Rattle.hash.specs.Calls.{fed, UpdateOutcome};
ghost use Rattle.hash.specs.Inside.{with_waiting, onward_of, Takes, Fills};

use crate::state::{LARGEST_BLOCK, State};
use algorithm::{Hash, Refusal};

// The state after a piece that fills no block.
fn appended(state: &State, at: usize, piece: &[u8]) -> State
    requires room { at + length piece.now ≤ largest_block }
    requires fits { state.now.count + length piece.now ≤ most_bytes }
    ensures { result ≡ with_waiting state.now (paste state.now.waiting at piece.now (length piece.now)) (length piece.now) }
{
    let mut next = *state;
    crate::place::put_at(&mut next.waiting, at, piece);
    next.count += piece.len() as u64;
    next
}

// Bytes with zeros after them, as they wait.
fn placed(bytes: &[u8]) -> [u8; LARGEST_BLOCK]
    requires { length bytes.now ≤ largest_block }
    ensures { result ≡ placed bytes.now }
{
    let mut waiting = [0; LARGEST_BLOCK];
    crate::place::put_at(&mut waiting, 0, bytes);
    waiting
}

// The state that goes on from these words with a run, and then with bytes: the whole blocks of the bytes are a run too, and what they
// leave waits. `count` is the state's.
fn onward<'a>(hash: Hash, words: [u64; 8], count: u64, run: &'a [u8], bytes: &'a [u8]) -> State
    requires { (fit hash words ≡ true) × (Run (block_of hash) run.now) }
    ensures { result ≡ onward_of hash (words_of hash words run.now) count bytes.now }
{
    let cut = bytes.len() - bytes.len() % algorithm::block_size(hash);
    State {
        hash,
        words: crate::blocks::words_after(hash, words, run, &bytes[..cut]),
        count,
        waiting: placed(&bytes[cut..]),
    }
}

// The state after a piece whose first `room` bytes fill the block that has begun: that block is a run.
fn filled(state: &State, at: usize, room: usize, piece: &[u8]) -> State
    requires { Fills state.now at room piece.now }
    ensures { result ≡ after_of state.now piece.now }
{
    let mut block = state.waiting;
    crate::place::put_at(&mut block, at, &piece[..room]);
    let count = state.count + piece.len() as u64;
    onward(
        state.hash,
        state.words,
        count,
        &block[..at + room],
        &piece[room..],
    )
}

// The state after a piece that is taken. States are lent, since each copy would take stack.
fn taken(state: &State, piece: &[u8]) -> State
    requires { Takes state.now piece.now }
    ensures { result ≡ after_of state.now piece.now }
{
    let at = crate::state::waiting_count(state);
    let room = algorithm::block_size(state.hash) - at;
    if piece.len() < room {
        return appended(state, at, piece);
    }
    if at == 0 {
        let count = state.count + piece.len() as u64;
        return onward(state.hash, state.words, count, b"", piece);
    }
    filled(state, at, room, piece)
}

// Takes one piece more; 10 where the state is not sound, 4 where the bytes would be too many. A refusal leaves the state as it was.
pub fn update(state: &mut State, piece: &[u8]) -> Result<(), Refusal>
    ensures { UpdateOutcome state.old piece.now (fed (number result) state.new) }
{
    if !crate::soundness::is_sound(state) {
        return Err(Refusal::StateNotSound);
    }
    if algorithm::MOST_BYTES - state.count < piece.len() as u64 {
        return Err(Refusal::MessageTooLong);
    }
    *state = taken(state, piece);
    Ok(())
}
