// A sum of numbers that knows whether it passed 2^64 - 1: then there is none.
ghost use Rattle.octets.specs.Calls.{PlusOutcome};

// The sum with one number more. Once there is none it stays so.
pub fn plus(sum: Option<u64>, summand: u64) -> Option<u64>
    ensures { PlusOutcome sum summand result }
{
    sum?.checked_add(summand)
}
