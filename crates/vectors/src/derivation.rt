// HKDF on RFC 5869's cases and on both sides of each limit.
mod calls;
mod cases;

use crate::made::HASHES;
use algorithm::Hash;
use std::io;

pub(crate) fn run(rt: &impl Print) -> io::Result<()> {
    cases::published(rt)?;
    for hash in HASHES {
        cases::lengths(rt, hash)?;
    }
    for hash in HASHES {
        cases::limits(rt, hash.into(), hash)?;
    }
    cases::limits(rt, 0, Hash::Sha256)?;
    cases::limits(rt, 3, Hash::Sha512)
}
