// The cases of HKDF: those that RFC 5869 prints, and lengths on both sides of each limit.
use crate::derivation::calls::{self, Inputs};
use crate::made;
use algorithm::{Hash, MOST_DIGESTS, MOST_INFO};
use std::io;

// RFC 5869, appendix A.
pub(crate) fn published(rt: &impl Print) -> io::Result<()> {
    println!(rt; "RFC 5869, case 1")?;
    let case_1 = Inputs {
        salt: &made::pattern::<13>(0x00),
        material: &[0x0b; 22],
        info: &made::pattern::<10>(0xf0),
    };
    calls::derive(rt, Hash::Sha256, case_1, 42)?;
    println!(rt; "RFC 5869, case 2")?;
    let case_2 = Inputs {
        salt: &made::pattern::<80>(0x60),
        material: &made::pattern::<80>(0x00),
        info: &made::pattern::<80>(0xb0),
    };
    calls::derive(rt, Hash::Sha256, case_2, 82)?;
    println!(rt; "RFC 5869, case 3")?;
    let case_3 = Inputs {
        salt: b"",
        material: &[0x0b; 22],
        info: b"",
    };
    calls::derive(rt, Hash::Sha256, case_3, 42)
}

// Both calls: outputs of none, one, a digest less one, a digest, one more, the most that expand gives, and more.
pub(crate) fn lengths(rt: &impl Print, hash: Hash) -> io::Result<()> {
    println!(rt; "hash {}", u32::from(hash))?;
    let digest = algorithm::digest_size(hash);
    let most = MOST_DIGESTS * digest;
    let salted = Inputs {
        salt: b"salt",
        material: &[0x0b; 22],
        info: b"info",
    };
    let unsalted = Inputs {
        salt: b"",
        material: &[0x0b; 22],
        info: b"",
    };
    calls::derive(rt, hash, salted, 0)?;
    calls::derive(rt, hash, salted, 1)?;
    calls::derive(rt, hash, salted, digest - 1)?;
    calls::derive(rt, hash, unsalted, digest)?;
    calls::derive(rt, hash, salted, digest + 1)?;
    calls::derive(rt, hash, salted, most)?;
    calls::derive(rt, hash, salted, most + 1)
}

// Keys and info on both sides of the limits of a hash, and outputs of extract of other sizes than its digest's, under its number or one
// that names no hash.
pub(crate) fn limits(rt: &impl Print, hash_number: u32, hash: Hash) -> io::Result<()> {
    let key = [0x0b; 65];
    let info = [0x1f; MOST_INFO + 1];
    let digest = algorithm::digest_size(hash);
    calls::expand(rt, hash_number, &key[..digest], &info[..MOST_INFO], 50)?;
    calls::expand(rt, hash_number, &key[..digest], &info, 50)?;
    calls::expand(rt, hash_number, &key[..digest - 1], &info, 50)?;
    calls::expand(rt, hash_number, &key, b"", 50)?;
    for size in [digest - 1, digest + 1] {
        calls::extract(rt, hash_number, b"salt", b"material", size)?;
    }
    Ok(())
}
