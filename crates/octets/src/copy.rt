// Copying.
ghost use Rattle.octets.specs.Calls.{CopyOutcome};

// Writes the beginning of `src` over the beginning of `out`, as far as both go. It goes one by one, since `copy_from_slice` has the
// archive ask for memmove, and it may ask for memcpy and memset alone.
pub fn copy_prefix<T: Copy>(src: &[T], out: &mut [T])
    ensures { CopyOutcome src.now out.old out.new }
{
    let count = src.len().min(out.len());
    for (i, element) in src[..count].iter().enumerate() {
        out[i] = *element;
    }
}
