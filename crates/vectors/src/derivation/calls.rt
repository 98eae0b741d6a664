// The calls of HKDF, each with what it answers. Outputs hold a5 everywhere before.
use algorithm::{Hash, Refusal};
use octets::Hex;
use std::io;

// What a key is derived from, and the info that goes into its bytes.
#[derive(Clone, Copy)]
pub(crate) struct Inputs<'a> {
    pub(crate) salt: &'a [u8],
    pub(crate) material: &'a [u8],
    pub(crate) info: &'a [u8],
}

// The number and the output of a call; of an output over 100 bytes its digest.
fn answer(rt: &impl Print, answered: Result<(), Refusal>, out: &[u8]) -> io::Result<()> {
    print!(rt; "{}, {} bytes: ", algorithm::number(answered), out.len())?;
    if out.len() <= 100 {
        return println!(rt; "{}", Hex(out));
    }
    let mut digest = [0; 32];
    let _ = hash::digest(Hash::Sha256.into(), out, &mut digest);
    println!(rt; "SHA-256 {}", Hex(&digest))
}

fn extract_to(
    rt: &impl Print,
    hash_number: u32,
    salt: &[u8],
    material: &[u8],
    out: &mut [u8],
) -> io::Result<()> {
    print!(rt; "  extract: ")?;
    let answered = hkdf::extract(hash_number, salt, material, out);
    answer(rt, answered, out)
}

// Into an output of some bytes, at most 65.
pub(crate) fn extract(
    rt: &impl Print,
    hash_number: u32,
    salt: &[u8],
    material: &[u8],
    size: usize,
) -> io::Result<()> {
    let mut out = [0xa5; 65];
    extract_to(rt, hash_number, salt, material, &mut out[..size.min(65)])
}

// Into an output of some bytes, at most 16,321. The hint keeps that space out of its callers' frames.
#[inline(never)]
pub(crate) fn expand(
    rt: &impl Print,
    hash_number: u32,
    key: &[u8],
    info: &[u8],
    size: usize,
) -> io::Result<()> {
    let mut space = [0xa5; 16321];
    let out = &mut space[..size.min(16321)];
    print!(rt; "  expand: ")?;
    let answered = hkdf::expand(hash_number, key, info, out);
    answer(rt, answered, out)
}

// A key, and so many bytes from it.
pub(crate) fn derive(rt: &impl Print, hash: Hash, inputs: Inputs, size: usize) -> io::Result<()> {
    let mut space = [0xa5; 64];
    let key = &mut space[..algorithm::digest_size(hash)];
    extract_to(rt, hash.into(), inputs.salt, inputs.material, key)?;
    expand(rt, hash.into(), key, inputs.info, size)
}
