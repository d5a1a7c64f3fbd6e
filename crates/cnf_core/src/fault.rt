ghost use Rattle.std.specs.Prelude.{◌≡◌};
ghost use Rattle.cnf_core.specs.declared.fault.TextFault.TheVariants.{NoMemory};

use bits_core::NoMemory;

/// Why a text was not read: it is not of the form, first at this line; or there was no memory.
#[derive(Clone, Copy, Debug, PartialEq, Eq)]
pub enum TextFault {
    Bad { line: u64 },
    NoMemory,
}

impl From<NoMemory> for TextFault {
    ghost from_gives = { λ _ fault. fault ≡ NoMemory };

    fn from(_: NoMemory) -> TextFault {
        TextFault::NoMemory
    }
}
