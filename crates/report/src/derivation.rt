// The two keys of a machine, from one PRK.
ghost use Rattle.std.specs.Prelude.{◌≡◌};
ghost use Rattle.algorithm.specs.Answers.{number};
ghost use Rattle.report.specs.Keys.{info_of, keys_of};
ghost use Rattle.report.specs.Calls.{KeysOutcome};
ghost use Rattle.report.specs.Inside.{Derivable};

use crate::format::hash_named;
use algorithm::{Hash, Refusal};

// The purposes of a key.
const TAG: u8 = 1;

const FINGERPRINT: u8 = 2;

// What sets a key apart: its purpose, the tenant and the machine.
fn info(purpose: u8, tenant: u32, machine: u64) -> [u8; 16]
    ensures { result ≡ info_of purpose tenant machine }
{
    let t = tenant.to_be_bytes();
    let m = machine.to_be_bytes();
    [
        0, 14, 1, purpose, t[0], t[1], t[2], t[3], m[0], m[1], m[2], m[3], m[4], m[5], m[6], m[7],
    ]
}

// Both keys, each of a digest's size.
fn derive(hash: Hash, prk: &[u8], tenant: u32, machine: u64, out: &mut [u8])
    requires { Derivable hash prk.now out.old }
    ensures { out.new ≡ keys_of hash prk.now tenant machine }
{
    let tag_info = info(TAG, tenant, machine);
    let fingerprint_info = info(FINGERPRINT, tenant, machine);
    let (tag_key, fingerprint_key) = out.split_at_mut(algorithm::digest_size(hash));
    hkdf::expand(hash.into(), prk, &tag_info, tag_key).unwrap();
    hkdf::expand(hash.into(), prk, &fingerprint_info, fingerprint_key).unwrap();
}

// The tag key, then the fingerprint key; 2 where no report names the hash, 3 where the PRK is too long, 6 where the output has not the
// bytes of two digests, 7 where the PRK is shorter than one.
pub fn keys(
    hash_number: u32,
    prk: &[u8],
    tenant: u32,
    machine: u64,
    out: &mut [u8],
) -> Result<(), Refusal>
    ensures { KeysOutcome hash_number prk.now tenant machine out.old (number result) out.new }
{
    let hash = hash_named(hash_number)?;
    let size = algorithm::digest_size(hash);
    if algorithm::MOST_BYTES < prk.len() as u64 {
        return Err(Refusal::KeyTooLong);
    }
    if out.len() != 2 * size {
        return Err(Refusal::WrongSize);
    }
    if prk.len() < size {
        return Err(Refusal::PrkTooShort);
    }
    derive(hash, prk, tenant, machine, out);
    Ok(())
}
