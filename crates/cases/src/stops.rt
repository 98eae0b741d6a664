// Why a record is not run to its end.
ghost use Rattle.std.specs.Prelude.{◌≡◌};
ghost use Rattle.cases.specs.declared.stops.Stop.TheVariants.{Failed};

use std::io;

// A part of the record is cut short or too long, or it is of another kind; or nothing can be written.
#[derive(Drop)]
pub enum Stop {
    NoRecord,
    Failed(io::Error),
}

impl From<io::Error> for Stop {
    ghost from_gives = { λ error stop. stop ≡ Failed error };

    fn from(error: io::Error) -> Stop {
        Stop::Failed(error)
    }
}
