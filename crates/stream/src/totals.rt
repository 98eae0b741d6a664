// The total that a report's first four bytes name.
ghost use Rattle.std.specs.Prelude.{◌≡◌, ◌≤◌, length};
ghost use Rattle.stream.specs.Stream.{total_of, in_range, waits};

// How many bytes name the total.
pub(crate) const COUNT: usize = 4;

// The first four bytes' number, plus 4. It has at most 33 bits, so that it does not wrap.
pub(crate) fn total_of(bytes: &[u8]) -> usize
    requires { 4 ≤ length bytes.now }
    ensures { result ≡ total_of bytes.now }
{
    let count = u32::from_be_bytes([bytes[0], bytes[1], bytes[2], bytes[3]]);
    count as usize + COUNT
}

// Whether a report can have so many bytes.
pub(crate) fn in_range(total: usize) -> bool
    ensures { result ≡ in_range total }
{
    (report::SMALLEST_REPORT..=report::LARGEST_REPORT).contains(&total)
}

// Whether bytes begin a report and wait for more of it: fewer than four, or fewer than their total, which is in range.
pub(crate) fn waits(bytes: &[u8]) -> bool
    ensures { result ≡ waits bytes.now }
{
    if bytes.len() < COUNT {
        return true;
    }
    let total = total_of(bytes);
    if !in_range(total) {
        return false;
    }
    bytes.len() < total
}
