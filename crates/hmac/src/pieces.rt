// One piece more under a key.
ghost use Rattle.algorithm.specs.Answers.{number};
ghost use Rattle.hmac.specs.Calls.{fed, UpdateOutcome};

use crate::keyed::Keyed;
use algorithm::Refusal;

// Takes one piece more; 10 where the keyed state is not sound, 4 where the bytes would be too many. A refusal leaves it as it was.
#[inline(never)]
pub fn update(keyed: &mut Keyed, piece: &[u8]) -> Result<(), Refusal>
    ensures { UpdateOutcome keyed.old piece.now (fed (number result) keyed.new) }
{
    if !crate::soundness::sound(*keyed) {
        return Err(Refusal::StateNotSound);
    }
    let mut inner = crate::keyed::inner(*keyed);
    hash::update(&mut inner, piece)?;
    *keyed = crate::keyed::join(inner, keyed.tag_length, keyed.outer);
    Ok(())
}
