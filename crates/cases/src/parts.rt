// The parts of a record, as they come of a reader.
ghost use Rattle.std.specs.Prelude.{List, ℕ, length, IfOk, OnOk};
ghost use Rattle.std.specs.Io.KnownBytes.{Consumes};
ghost use Rattle.octets.specs.Number.{bytes};
ghost use Rattle.cases.specs.Calls.{NumberOutcome, SizeOutcome, ListOutcome, StringOutcome};

use crate::stops::Stop;
use std::io::Read;

// A number that a record spells in bytes, the highest first.
pub trait Number: Copy {
    // Those bytes.
    ghost spelled: { Self → List ℕ };

    // The number whose bytes a reader gives next.
    fn read_from<R: Read>(from: &mut R) -> Result<Self, Stop>
        ensures { IfOk result (λ n. Consumes (R.remaining from.old) (R.remaining from.new) (spelled n)) };
}

impl Number for u8 {
    ghost spelled = { bytes 1 };

    fn read_from<R: Read>(from: &mut R) -> Result<u8, Stop>
        ensures { IfOk result (NumberOutcome 1 (R.remaining from.old) (R.remaining from.new)) }
    {
        Ok(u8::from_be_bytes(array(from)?))
    }
}

impl Number for u32 {
    ghost spelled = { bytes 4 };

    fn read_from<R: Read>(from: &mut R) -> Result<u32, Stop>
        ensures { IfOk result (NumberOutcome 4 (R.remaining from.old) (R.remaining from.new)) }
    {
        Ok(u32::from_be_bytes(array(from)?))
    }
}

impl Number for u64 {
    ghost spelled = { bytes 8 };

    fn read_from<R: Read>(from: &mut R) -> Result<u64, Stop>
        ensures { IfOk result (NumberOutcome 8 (R.remaining from.old) (R.remaining from.new)) }
    {
        Ok(u64::from_be_bytes(array(from)?))
    }
}

// Every byte of a part.
fn fill<R: Read>(from: &mut R, part: &mut [u8]) -> Result<(), Stop>
    ensures { OnOk result (Consumes (R.remaining from.old) (R.remaining from.new) part.new) }
{
    from.read_exact(part).map_err(|_| Stop::NoRecord)
}

// So many bytes.
fn array<const N: usize, R: Read>(from: &mut R) -> Result<[u8; N], Stop>
    ensures { IfOk result (λ b. Consumes (R.remaining from.old) (R.remaining from.new) b) }
{
    let mut bytes = [0u8; N];
    fill(from, &mut bytes)?;
    Ok(bytes)
}

// A size that is at most so much.
pub fn size<R: Read>(from: &mut R, most: usize) -> Result<usize, Stop>
    ensures { IfOk result (SizeOutcome most (R.remaining from.old) (R.remaining from.new)) }
{
    let n = u32::read_from(from)? as usize;
    if most < n {
        return Err(Stop::NoRecord);
    }
    Ok(n)
}

// A string of bytes after its size, at the start of a space.
pub fn string<'a, R: Read>(from: &mut R, space: &'a mut [u8]) -> Result<&'a [u8], Stop>
    ensures { IfOk result (λ s. StringOutcome (length space.old) (R.remaining from.old) (R.remaining from.new) s.now) }
{
    let n = size(from, space.len())?;
    let part = &mut space[..n];
    fill(from, part)?;
    Ok(part)
}

// A list of numbers after how many there are, at the start of a space.
pub fn list<'a, T: Number, R: Read>(from: &mut R, space: &'a mut [T]) -> Result<&'a [T], Stop>
    ensures { IfOk result (λ l. ListOutcome T.spelled (length space.old) (R.remaining from.old) (R.remaining from.new) l.now) }
{
    let n = size(from, space.len())?;
    let numbers = &mut space[..n];
    for place in &mut *numbers {
        *place = T::read_from(from)?;
    }
    Ok(numbers)
}
