// The bytes of a number, big-endian.
ghost use Rattle.octets.specs.Calls.{EightBytesOutcome};

// The eight bytes of a number.
pub fn eight_bytes(x: u64) -> [u8; 8]
    ensures { EightBytesOutcome x result }
{
    x.to_be_bytes()
}
