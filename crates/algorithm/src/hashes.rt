// The hashes that we make: their numbers and their sizes.
ghost use Rattle.std.specs.Prelude.{◌≡◌};
ghost use Rattle.algorithm.specs.Hashes.{hash_number};
ghost use Rattle.algorithm.specs.Calls.{WhichOutcome, BlockSizeOutcome, DigestSizeOutcome, ShortestTagOutcome};

use crate::refusals::Refusal;

#[derive(Clone, Copy, Debug, PartialEq, Eq)]
pub enum Hash {
    Sha256,
    Sha512,
}

// The hash that a number names; 2 where it names none.
impl TryFrom<u32> for Hash {
    type Error = Refusal;

    ghost try_from_gives = { WhichOutcome };

    fn try_from(hash_number: u32) -> Result<Self, Refusal> {
        match hash_number {
            1 => Ok(Hash::Sha256),
            2 => Ok(Hash::Sha512),
            _ => Err(Refusal::UnknownHash),
        }
    }
}

// The number that names a hash.
impl From<Hash> for u32 {
    ghost from_gives = { λ hash n. n ≡ hash_number hash };

    fn from(hash: Hash) -> u32 {
        match hash {
            Hash::Sha256 => 1,
            Hash::Sha512 => 2,
        }
    }
}

// The bytes of a block.
pub fn block_size(hash: Hash) -> usize
    ensures { BlockSizeOutcome hash result }
{
    match hash {
        Hash::Sha256 => 64,
        Hash::Sha512 => 128,
    }
}

// The bytes of a digest.
pub fn digest_size(hash: Hash) -> usize
    ensures { DigestSizeOutcome hash result }
{
    match hash {
        Hash::Sha256 => 32,
        Hash::Sha512 => 64,
    }
}

// The bytes of the shortest tag, half a digest (RFC 2104).
pub fn shortest_tag(hash: Hash) -> usize
    ensures { ShortestTagOutcome hash result }
{
    match hash {
        Hash::Sha256 => 16,
        Hash::Sha512 => 32,
    }
}
