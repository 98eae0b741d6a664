// HMAC on RFC 4231's cases and at its edges.
mod asked;
mod comparison;
mod edges;
mod keyed;
mod published;
mod sizes;

use crate::made::HASHES;
use std::io;

pub(crate) fn run(rt: &impl Print) -> io::Result<()> {
    edges::starts(rt)?;
    for hash in HASHES {
        published::cases(rt, hash)?;
        edges::lengths(rt, hash)?;
        edges::keys(rt, hash)?;
        edges::states(rt, hash)?;
        edges::state_lengths(rt, hash)?;
        edges::limit(rt, hash)?;
        edges::large_counts(rt, hash)?;
        sizes::rows(rt, hash)?;
        comparison::rows(rt, hash)?;
    }
    Ok(())
}
