// The tag of a keyed state, and its comparison with a presented one.
ghost use Rattle.std.specs.Prelude.{◌≡◌, true};
ghost use Rattle.octets.specs.Zeros.{zeros_to};
ghost use Rattle.algorithm.specs.Answers.{number};
ghost use Rattle.algorithm.specs.Checks.{first_failing};
ghost use Rattle.hmac.specs.Keyed.{sound_keyed, full_tag};
ghost use Rattle.hmac.specs.Calls.{tag_checks, TagOutcome, VerifyOutcome};

use crate::keyed::Keyed;
use algorithm::Refusal;

// The full tag of a sound keyed state, and zeros after it.
fn full(keyed: Keyed) -> [u8; 64]
    requires { sound_keyed keyed ≡ true }
    ensures { result ≡ zeros_to 64 (full_tag keyed) }
{
    let digest = crate::ending::ended(crate::keyed::inner(keyed));
    let size = algorithm::digest_size(keyed.hash);
    let mut outer = crate::keyed::outer(keyed);
    hash::update(&mut outer, &digest[..size]).unwrap();
    crate::ending::ended(outer)
}

// The checks that tag and verify share, of an output or of what is presented: 10 where the state is not sound, 6 where the bytes are
// not of its tag length.
fn check(keyed: Keyed, bytes: &[u8]) -> Result<(), Refusal>
    ensures { number result ≡ first_failing (tag_checks keyed bytes.now) }
{
    if !crate::soundness::sound(keyed) {
        return Err(Refusal::StateNotSound);
    }
    if bytes.len() != keyed.tag_length {
        return Err(Refusal::WrongSize);
    }
    Ok(())
}

// The tag of the bytes taken so far, which does not use the state up; 10 where the state is not sound, 6 where the output is not of
// its tag length.
#[inline(never)]
pub fn tag(keyed: Keyed, out: &mut [u8]) -> Result<(), Refusal>
    ensures { TagOutcome keyed out.old (number result) out.new }
{
    check(keyed, out)?;
    let whole = full(keyed);
    octets::copy_prefix(&whole, out);
    Ok(())
}

// Whether the presented bytes are the tag: 1 where they are not; 10 and 6 as for the tag. The comparison has no early exit.
#[inline(never)]
pub fn verify(keyed: Keyed, presented: &[u8]) -> Result<(), Refusal>
    ensures { VerifyOutcome keyed presented.now (number result) }
{
    check(keyed, presented)?;
    let whole = full(keyed);
    if octets::same(presented, &whole[..keyed.tag_length]) {
        Ok(())
    } else {
        Err(Refusal::TagDiffers)
    }
}
