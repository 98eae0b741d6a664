// A message in one piece.
ghost use Rattle.algorithm.specs.Answers.{number};
ghost use Rattle.hash.specs.Calls.{DigestOutcome};

use algorithm::Refusal;

// The digest of a message; 2, 4 and 6 as a start, a piece and the end give them.
pub fn digest(hash_number: u32, message: &[u8], out: &mut [u8]) -> Result<(), Refusal>
    ensures { DigestOutcome hash_number message.now out.old (number result) out.new }
{
    let mut state = crate::starting::start(hash_number)?;
    crate::pieces::update(&mut state, message)?;
    crate::ending::finish(state, out)
}
