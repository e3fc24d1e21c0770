ghost use Rattle.std.specs.Prelude.{◌≡◌};
ghost use Rattle.pdw_run.specs.Stops.{stop_of};

use pdw_base::NoMemory;
use pdw_engine::{Refusal, Stop as Stopped};

/// Why a statement gave no text.
#[derive(Debug, Drop)]
pub enum Stop {
    /// It is refused.
    Refused(Refusal),
    /// Its file is too long.
    TooLong,
    /// Its file could not be read.
    Unread,
    /// Memory was wanted.
    Memory,
}

impl From<NoMemory> for Stop {
    ghost use Rattle.std.specs.Prelude.{◌≡◌};
    ghost use Rattle.pdw_run.specs.declared.stop.Stop.TheVariants.{Memory};

    ghost from_gives = { λ _ stop. stop ≡ Memory };

    fn from(_error: NoMemory) -> Stop {
        Stop::Memory
    }
}

/// The same of what the engine says.
pub fn stopped(stop: Stopped) -> Stop
    ensures { result ≡ stop_of stop }
{
    match stop {
        Stopped::Refused(refusal) => Stop::Refused(refusal),
        Stopped::Memory => Stop::Memory,
    }
}
