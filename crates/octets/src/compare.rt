// Comparing bytes.
ghost use Rattle.octets.specs.Calls.{SameOutcome};

// Whether two slices hold the same bytes. It gathers the bits in which they differ and tests them once, with no early exit.
pub fn same(a: &[u8], b: &[u8]) -> bool
    ensures { SameOutcome a.now b.now result }
{
    if a.len() != b.len() {
        return false;
    }
    let mut bits = 0;
    for (x, y) in a.iter().zip(b) {
        bits |= x ^ y;
    }
    bits == 0
}
