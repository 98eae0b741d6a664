// How the run of a record ended, and what comes after it.
ghost use Rattle.cases.specs.Calls.{GoesOnOutcome};

use crate::stops::Stop;
use std::io;

// Whether there may be another record: after one that was run to its end. Of one that is none, a line says so. The hint keeps what
// printing takes of the stack out of the frame below all records.
#[inline(never)]
pub fn goes_on(rt: &impl Print, ended: Result<(), Stop>) -> io::Result<bool>
    ensures { GoesOnOutcome ended result }
{
    match ended {
        Ok(()) => Ok(true),
        Err(Stop::NoRecord) => {
            println!(rt; "no record: of another kind, cut short, or with a part too long")?;
            Ok(false)
        }
        Err(Stop::Failed(error)) => Err(error),
    }
}
