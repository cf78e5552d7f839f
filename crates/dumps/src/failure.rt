// What ends a program early, and how the errors of the calls turn into it.
ghost use Rattle.std.specs.Prelude.{◌≡◌};
ghost use Rattle.dumps.specs.declared.failure.Failure.TheVariants.{TurnedDown, Memory, System};

use image::Unopened;
use refusal::Fault;
use std::alloc::{AllocError, AllocFailed};
use std::io;

// Why a program ends early.
#[derive(Debug, Drop)]
pub enum Failure {
    // a call was turned down
    TurnedDown(Fault),
    // no share of this number was made
    NoShare(usize),
    // there is no memory left
    Memory,
    // a file, the clock or the output failed
    System(io::Error),
    // the first argument is no request that the program knows
    UnknownRequest,
}

impl From<Fault> for Failure {
    ghost from_gives = { λ fault failure. failure ≡ TurnedDown fault };

    // A refusal keeps what it tells.
    fn from(fault: Fault) -> Failure {
        Failure::TurnedDown(fault)
    }
}

impl From<Unopened> for Failure {
    ghost from_gives = { λ unopened failure. failure ≡ TurnedDown unopened.fault };

    // The refusal is kept, and the image is let go.
    fn from(unopened: Unopened) -> Failure {
        Failure::TurnedDown(unopened.fault)
    }
}

impl From<AllocError> for Failure {
    ghost from_gives = { λ _ failure. failure ≡ Memory };

    // No memory for a new value.
    fn from(_error: AllocError) -> Failure {
        Failure::Memory
    }
}

impl<T: Drop> From<AllocFailed<T>> for Failure {
    ghost from_gives = { λ _ failure. failure ≡ Memory };

    // No memory for a value that was to be added, which is let go.
    fn from(_error: AllocFailed<T>) -> Failure {
        Failure::Memory
    }
}

impl From<io::Error> for Failure {
    ghost from_gives = { λ error failure. failure ≡ System error };

    // An error of the system is kept.
    fn from(error: io::Error) -> Failure {
        Failure::System(error)
    }
}
