// What the format fixes: the sizes of a report and of its parts, and the hash that a report names.
ghost use Rattle.std.specs.Prelude.{◌≡◌, ◌*◌};
ghost use Rattle.algorithm.specs.Hashes.{size_of};
ghost use Rattle.report.specs.Reading.{named_in};

use algorithm::{Hash, Refusal};

// The fewest and the most bytes of a report.
pub const SMALLEST_REPORT: usize = 61;

pub const LARGEST_REPORT: usize = 3981;
// The bytes before the first site.
pub(crate) const HEAD: usize = 45;
// The most sites.
pub(crate) const MOST_SITES: u64 = 64;
// The most bytes of a label.
pub(crate) const LONGEST_LABEL: usize = 48;
// The bytes of a site beside its label: the label's length, live bytes and live blocks.
pub(crate) const BESIDE_LABEL: usize = 13;
// Where the bytes start that the tag covers.
pub(crate) const TAGGED_FROM: usize = 0;
// Where the count ends, and the gap that the send time and the attempt leave in a fingerprint.
pub(crate) const COUNT_END: usize = 4;

pub(crate) const GAP_START: usize = 26;

pub(crate) const GAP_END: usize = 35;
// The bytes of a fingerprint.
pub(crate) const FINGERPRINT: usize = 32;
// The fewest bytes of a report's key.
pub(crate) const SHORTEST_REPORT_KEY: usize = 16;

// The hash that a report names by a number. Reports have their own list: a hash that other calls make is none of theirs.
pub(crate) fn hash_named(hash_number: u32) -> Result<Hash, Refusal>
    ensures { result ≡ named_in hash_number }
{
    match hash_number {
        1 => Ok(Hash::Sha256),
        2 => Ok(Hash::Sha512),
        _ => Err(Refusal::UnknownHash),
    }
}

// The bytes of a report's tag: half a digest.
pub(crate) fn tag_size(hash: Hash) -> usize
    ensures { 2 * result ≡ size_of hash }
{
    algorithm::digest_size(hash) / 2
}
