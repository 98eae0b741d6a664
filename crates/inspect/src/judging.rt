// The judgement on a report that reading lets pass: its tag and its fingerprint, under the keys of its machine.
ghost use Rattle.std.specs.Prelude.{◌≡◌, ◌<◌, ◌≤◌, IfOk, IfErr};
ghost use Rattle.algorithm.specs.Refusals.{tag_differs};
ghost use Rattle.algorithm.specs.Answers.{number_of, number};
ghost use Rattle.report.specs.Calls.{reading_by};
ghost use Rattle.inspect.specs.Judging.{verdict_under, fingerprint_under, verdict_by, judged_of};

use algorithm::{Hash, Refusal};
use report::Reading;

// What a report turns out to be under keys that serve: whether its tag matches or differs, and its fingerprint.
#[derive(Clone, Copy)]
pub struct Judged {
    pub tag: Result<(), Refusal>,
    pub fingerprint: [u8; 32],
}

// The judgement under the two keys, the tag key and after it the fingerprint key. Keys of one length are refused alike, so where the tag is
// compared the fingerprint is made.
fn judge_under(report: &[u8], keys: &[u8]) -> Result<Judged, Refusal>
    ensures number { verdict_by result ≡ verdict_under report.now keys.now }
    ensures compared { IfOk result (λ judged. number judged.tag ≤ tag_differs) }
    ensures refused { IfErr result (λ refusal. tag_differs < number_of refusal) }
    ensures fingerprint { IfOk result (λ judged. judged.fingerprint ≡ fingerprint_under report.now keys.now) }
{
    let (tag_key, fingerprint_key) = keys.split_at(keys.len() / 2);
    let tag = report::check(report, tag_key);
    match tag {
        Ok(()) | Err(Refusal::TagDiffers) => {
            let mut fingerprint = [0; 32];
            let _ = report::fingerprint(report, fingerprint_key, &mut fingerprint);
            Ok(Judged { tag, fingerprint })
        }
        Err(refusal) => Err(refusal),
    }
}

// The judgement on a report of which reading is given; what refuses the PRK.
pub(crate) fn judge(report: &[u8], read: Reading, prk: &[u8]) -> Result<Judged, Refusal>
    ensures number { verdict_by result ≡ judged_of report.now (reading_by (Ok read)) prk.now }
    ensures compared { IfOk result (λ judged. number judged.tag ≤ tag_differs) }
{
    let number = u32::from(read.hash);
    let hash = Hash::try_from(number)?;
    let mut space = [0; 128];
    let keys = &mut space[..2 * algorithm::digest_size(hash)];
    report::keys(number, prk, read.tenant, read.machine, keys)?;
    judge_under(report, keys)
}

// What a judgement comes to: the check of the tag, or what refuses the PRK.
pub(crate) fn verdict(judged: Result<Judged, Refusal>) -> Result<(), Refusal>
    ensures { number result ≡ verdict_by judged }
{
    judged?.tag
}
