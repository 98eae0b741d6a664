// The hashes on FIPS 180-4's examples and at their edges.
mod edges;
mod messages;
mod runs;
mod states;

use crate::made::HASHES;
use std::io;

pub(crate) fn run(rt: &impl Print) -> io::Result<()> {
    edges::starts(rt)?;
    for hash in HASHES {
        messages::published(rt, hash)?;
        messages::million(rt, hash)?;
        messages::lengths(rt, hash)?;
        runs::all(rt, hash)?;
        edges::states(rt, hash)?;
        edges::limit(rt, hash)?;
        edges::large_counts(rt, hash)?;
        edges::sizes(rt, hash)?;
        edges::going_on(rt, hash)?;
    }
    Ok(())
}
