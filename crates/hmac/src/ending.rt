// The digest that a state of the hash ends in.
ghost use Rattle.std.specs.Prelude.{◌≡◌, true, ◌≤◌, length};
ghost use Rattle.octets.specs.Copy.{over};
ghost use Rattle.algorithm.specs.Hashes.{size_of};
ghost use Rattle.hash.specs.State.{sound_of, end_of};
ghost use Rattle.octets.specs.Zeros.{zeros_to};

use hash::State;

// Over the beginning of a buffer.
fn end_into(state: State, out: &mut [u8])
    requires sound { sound_of state ≡ true }
    requires room { size_of state.hash ≤ length out.old }
    ensures { out.new ≡ over (end_of state) out.old }
{
    let size = algorithm::digest_size(state.hash);
    hash::finish(state, &mut out[..size]).unwrap();
}

// With zeros after it.
pub(crate) fn ended(state: State) -> [u8; 64]
    requires { sound_of state ≡ true }
    ensures { result ≡ zeros_to 64 (end_of state) }
{
    let mut out = [0u8; 64];
    end_into(state, &mut out);
    out
}
