// Pieces that make whole blocks with what waits, zero to three of them, and the states that they lead to.
use crate::made;
use crate::work::{self, Work};
use algorithm::Hash;
use hash::State;
use std::io;

// The count of a state, the whole blocks that its waiting bytes make with a piece, and the bytes left over. The first two pieces fill no
// block, so that no run is handed over; the first is an empty one where nothing waits. Of the two runs that any other hands over, the
// first is of no blocks where nothing waits, and the second where bytes that wait are topped up to one block.
const RUNS: [[usize; 3]; 16] = [
    [0, 0, 0],
    [0, 0, 1],
    [0, 1, 0],
    [0, 1, 1],
    [0, 2, 0],
    [0, 3, 1],
    [1, 1, 0],
    [1, 1, 1],
    [1, 2, 0],
    [1, 3, 0],
    [1, 3, 1],
    [63, 1, 0],
    [63, 2, 1],
    [127, 1, 0],
    [127, 2, 1],
    [127, 3, 0],
];

// A part of the pattern for each, taken by a state with words of its own.
pub(crate) fn all(rt: &impl Print, hash: Hash) -> io::Result<()> {
    let bytes: [u8; 385] = made::pattern(0);
    for [count, blocks, left] in RUNS {
        let block = algorithm::block_size(hash);
        if let Some(part) = bytes.get(count % block..blocks * block + left) {
            work::piece(rt, State::own(hash, count as u64), part)?;
        }
    }
    Ok(())
}
