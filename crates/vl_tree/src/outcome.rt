ghost use Rattle.std.specs.Prelude.{◌≡◌};
ghost use Rattle.vl_tree.specs.Outcomes as spec;

use crate::faults::{Code, Fault, Place, Stop};
use bits_core::{Name, NoMemory};
use std::alloc::AllocError;

/// Why a step has no value: want of memory, or the code of a fault or of a limit, whose place the caller knows.
#[derive(Clone, Copy, Debug, PartialEq, Eq)]
pub enum Halt {
    NoMemory,
    Refused(Code),
}

impl From<NoMemory> for Halt {
    ghost use Rattle.std.specs.Prelude.{◌≡◌};
    ghost use Rattle.vl_tree.specs.declared.outcome.Halt.TheVariants.{NoMemory};

    ghost from_gives = { λ _ halt. halt ≡ NoMemory };

    fn from(_: NoMemory) -> Halt {
        Halt::NoMemory
    }
}

impl From<AllocError> for Halt {
    ghost use Rattle.std.specs.Prelude.{◌≡◌};
    ghost use Rattle.vl_tree.specs.declared.outcome.Halt.TheVariants.{NoMemory};

    ghost from_gives = { λ _ halt. halt ≡ NoMemory };

    fn from(_: AllocError) -> Halt {
        Halt::NoMemory
    }
}

/// What is answered for a halt in the scope of a path.
pub fn stop_at(path: Name, halt: Halt) -> Stop
    ensures { result ≡ spec.stop_at path halt }
{
    match halt {
        Halt::NoMemory => Stop::NoMemory,
        Halt::Refused(code) => {
            if code.bound() > 0 {
                Stop::Limit(code)
            } else {
                Stop::Fault(Fault {
                    code,
                    place: Place::Path(path),
                })
            }
        }
    }
}
