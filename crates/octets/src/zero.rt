// The test for zeros.
ghost use Rattle.octets.specs.Calls.{AllZeroOutcome};

// Whether every byte is zero. It gathers the bits of all and tests them once, with no early exit, so that it compiles to few
// instructions.
pub fn all_zero(bytes: &[u8]) -> bool
    ensures { AllZeroOutcome bytes.now result }
{
    bytes.iter().fold(0, |bits, byte| bits | byte) == 0
}
