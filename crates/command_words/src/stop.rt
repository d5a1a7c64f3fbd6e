// Why words are not read.
use bits_core::NoMemory;
use std::alloc::AllocError;

/// Why words are not read: they are no command, or memory is wanting.
#[derive(Clone, Copy, Debug, PartialEq, Eq)]
pub enum WordsStop {
    BadWords,
    NoMemory,
}

impl From<NoMemory> for WordsStop {
    ghost use Rattle.std.specs.Prelude.{◌≡◌};
    ghost use Rattle.command_words.specs.declared.stop.WordsStop.TheVariants.{NoMemory};

    ghost from_gives = { λ _ e. e ≡ NoMemory };

    fn from(_: NoMemory) -> WordsStop {
        WordsStop::NoMemory
    }
}

impl From<AllocError> for WordsStop {
    ghost use Rattle.std.specs.Prelude.{◌≡◌};
    ghost use Rattle.command_words.specs.declared.stop.WordsStop.TheVariants.{NoMemory};

    ghost from_gives = { λ _ e. e ≡ NoMemory };

    fn from(_: AllocError) -> WordsStop {
        WordsStop::NoMemory
    }
}
