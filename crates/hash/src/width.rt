// The two widths of a word, and which of them a hash works on.
ghost use Rattle.std.specs.Prelude.{◌≡◌};
ghost use Rattle.hash.specs.Description.{describe, core_of};

use algorithm::Hash;

#[derive(Clone, Copy)]
pub enum Width {
    // Words of 32 bits.
    Narrow,
    // Words of 64 bits.
    Wide,
}

pub(crate) fn width_of(hash: Hash) -> Width
    ensures { (describe hash).core ≡ core_of result }
{
    match hash {
        Hash::Sha256 => Width::Narrow,
        Hash::Sha512 => Width::Wide,
    }
}
