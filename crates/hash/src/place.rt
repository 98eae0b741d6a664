// Bytes written into a buffer at a place.
ghost use Rattle.std.specs.Prelude.{◌≡◌, ◌+◌, ◌≤◌, length};
ghost use Rattle.std.proofs.Math.Seq.{paste};

pub(crate) fn put_at(out: &mut [u8], at: usize, bytes: &[u8])
    requires { at + length bytes.now ≤ length out.old }
    ensures { out.new ≡ paste out.old at bytes.now (length bytes.now) }
{
    octets::copy_prefix(bytes, &mut out[at..]);
}
