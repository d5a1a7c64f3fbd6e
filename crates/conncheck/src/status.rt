// How a call ends.
ghost use Rattle.std.specs.Prelude.{◌≡◌};
ghost use Rattle.conncheck.specs.Causes.{code_of};

use bits_core::NoMemory;
use shelf_io::SinkError;
use std::alloc::AllocError;

/// How a call ended.
#[derive(Clone, Copy, Debug, PartialEq, Eq)]
pub enum Status {
    Done,
    Findings,
    BadWords,
    Refused,
    ReadFault,
    WriteFault,
    NoMemory,
    Limit,
}

impl Status {
    /// The exit status of the program. Takes no memory.
    pub fn code(&self) -> u8
        ensures { result ≡ code_of self.now }
    {
        match self {
            Status::Done => 0,
            Status::Findings => 1,
            Status::BadWords => 2,
            Status::Refused => 3,
            Status::ReadFault => 4,
            Status::WriteFault => 5,
            Status::NoMemory => 6,
            Status::Limit => 7,
        }
    }
}

/// Why a text is not whole.
#[derive(Clone, Copy, Debug, PartialEq, Eq)]
pub enum Stop {
    Write,
    Memory,
}

impl From<SinkError> for Stop {
    ghost use Rattle.conncheck.specs.declared.status.Stop.TheVariants.{Write};

    ghost from_gives = { λ _ e. e ≡ Write };

    fn from(_: SinkError) -> Stop {
        Stop::Write
    }
}

impl From<NoMemory> for Stop {
    ghost use Rattle.conncheck.specs.declared.status.Stop.TheVariants.{Memory};

    ghost from_gives = { λ _ e. e ≡ Memory };

    fn from(_: NoMemory) -> Stop {
        Stop::Memory
    }
}

impl From<AllocError> for Stop {
    ghost use Rattle.conncheck.specs.declared.status.Stop.TheVariants.{Memory};

    ghost from_gives = { λ _ e. e ≡ Memory };

    fn from(_: AllocError) -> Stop {
        Stop::Memory
    }
}
