// The fingerprint of a report, under the fingerprint key.
ghost use Rattle.std.specs.Prelude.{◌≡◌, ◌++◌};
ghost use Rattle.algorithm.specs.Answers.{number};
ghost use Rattle.hmac.specs.Hmac.{tag_of};
ghost use Rattle.report.specs.Calls.{FingerprintOutcome};
ghost use Rattle.report.specs.Inside.{TwoPieces};

use crate::checks::{check_key, check_report};
use crate::format::{COUNT_END, FINGERPRINT, GAP_END, GAP_START};
use algorithm::{Hash, Refusal};

// The tag of two pieces.
fn tag_pieces(hash: Hash, key: &[u8], first: &[u8], second: &[u8], out: &mut [u8])
    requires { TwoPieces hash key.now first.now second.now out.old }
    ensures { out.new ≡ tag_of hash key.now 32 (first.now ++ second.now) }
{
    let mut keyed = hmac::start(hash.into(), key, FINGERPRINT).unwrap();
    hmac::update(&mut keyed, first).unwrap();
    hmac::update(&mut keyed, second).unwrap();
    hmac::tag(keyed, out).unwrap();
}

// All bytes before the tag but the count, the send time and the attempt; reading's numbers, 3 where the key is too long, 21 where it is
// too short, 6 where the output has not 32 bytes.
pub fn fingerprint(report: &[u8], fingerprint_key: &[u8], out: &mut [u8]) -> Result<(), Refusal>
    ensures { FingerprintOutcome report.now fingerprint_key.now out.old (number result) out.new }
{
    let checked = check_report(report)?;
    check_key(fingerprint_key)?;
    if out.len() != FINGERPRINT {
        return Err(Refusal::WrongSize);
    }
    tag_pieces(
        checked.hash,
        fingerprint_key,
        &report[COUNT_END..GAP_START],
        &report[GAP_END..checked.end],
        out,
    );
    Ok(())
}
