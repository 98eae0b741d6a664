// The lengths that a tag may have.
ghost use Rattle.std.specs.Prelude.{◌≡◌};
ghost use Rattle.algorithm.specs.Hashes.{allowed};

use algorithm::Hash;

// Whether a tag of this length may be asked for.
pub(crate) fn length_allowed(hash: Hash, tag_length: usize) -> bool
    ensures { result ≡ allowed hash tag_length }
{
    (algorithm::shortest_tag(hash)..=algorithm::digest_size(hash)).contains(&tag_length)
}
