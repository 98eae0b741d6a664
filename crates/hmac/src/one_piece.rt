// A message in one piece under a key.
ghost use Rattle.algorithm.specs.Answers.{number};
ghost use Rattle.hmac.specs.Calls.{TagMessageOutcome, VerifyMessageOutcome};

use algorithm::Refusal;

// The tag of a message; 2, 3 and 5 as a start gives them, then 4 as a piece, and 6 as the tag of a keyed state.
pub fn tag_message(
    hash_number: u32,
    key: &[u8],
    message: &[u8],
    tag_length: usize,
    out: &mut [u8],
) -> Result<(), Refusal>
    ensures { TagMessageOutcome hash_number key.now message.now tag_length out.old (number result) out.new }
{
    let mut keyed = crate::starting::start(hash_number, key, tag_length)?;
    crate::pieces::update(&mut keyed, message)?;
    crate::tags::tag(keyed, out)
}

// Whether the presented bytes are the message's tag of this length; 2, 3, 5, 4 and 6 as for the tag, then 1 where they are not.
pub fn verify_message(
    hash_number: u32,
    key: &[u8],
    message: &[u8],
    tag_length: usize,
    presented: &[u8],
) -> Result<(), Refusal>
    ensures { VerifyMessageOutcome hash_number key.now message.now tag_length presented.now (number result) }
{
    let mut taken = crate::starting::start(hash_number, key, tag_length)?;
    crate::pieces::update(&mut taken, message)?;
    crate::tags::verify(taken, presented)
}
