ghost use Rattle.std.specs.Prelude.{◌≡◌};
ghost use Rattle.vl_tree.specs.Codes as spec;

use bits_core::{Name, NoMemory};
use std::alloc::AllocError;

/// Why a source, a table or a text is refused: the faults E and C, and the limits L. The number of a variant is its place in the order
/// of the phases in which the faults are sought.
#[derive(Clone, Copy, Debug, PartialEq, Eq)]
pub enum Code {
    /// E01
    BadByte = 1,
    /// E02
    Unclosed = 2,
    /// E03
    BadNumber = 3,
    /// E04
    LeftOut = 4,
    /// E05
    Syntax = 5,
    /// E06
    Directive = 6,
    /// E07
    IncludeDepth = 7,
    /// E08
    UnknownModule = 8,
    /// E09
    DuplicateModule = 9,
    /// E10
    Recursive = 10,
    /// E11
    LoopTooLong = 11,
    /// E12
    BadOverride = 12,
    /// E13
    NameClash = 13,
    /// E14
    NotConstant = 14,
    /// E15
    ZeroDivisor = 15,
    /// E16
    UnknownName = 16,
    /// E17
    DuplicateName = 17,
    /// E18
    BadRange = 18,
    /// E19
    PortMismatch = 19,
    /// E20
    OtherClock = 20,
    /// E21
    ResetForm = 21,
    /// E22
    BlockingInClocked = 22,
    /// E23
    NonblockingInComb = 23,
    /// E24
    WideArithmetic = 24,
    /// E25
    MultipleDrivers = 25,
    /// E26
    Latch = 26,
    /// E27
    ReadBeforeWrite = 27,
    /// E28
    CombLoop = 28,
    /// E29
    ArrayUse = 29,
    /// C01
    NoSuchModule = 101,
    /// C02
    NoSuchInput = 102,
    /// C03
    Clash = 103,
    /// C04
    PinValue = 104,
    /// C05
    NoSuchRow = 105,
    /// C06
    BadKind = 106,
    /// C07
    FieldCount = 107,
    /// C08
    NoConnection = 108,
    /// C09
    BadValue = 109,
    /// C10
    DuplicateRow = 110,
    /// C11
    BadLatency = 111,
    /// C12
    NoSuchSignal = 112,
    /// C13
    WidthMismatch = 113,
    /// C14
    BadPlan = 114,
    /// C15
    BadScript = 115,
    /// C16
    BadTrace = 116,
    /// C17
    BadDimacs = 117,
    /// C18
    BadLrat = 118,
    /// C19
    BadVcd = 119,
    /// L01
    FileBytes = 201,
    /// L02
    Tokens = 202,
    /// L03
    Scopes = 203,
    /// L04
    Weight = 204,
    /// L05
    Rows = 205,
    /// L06
    Conditions = 206,
    /// L07
    Latency = 207,
    /// L08
    Candidates = 208,
    /// L09
    Files = 209,
    /// L10
    Ports = 210,
}

impl Code {
    /// The number, as `E28`. Takes no memory.
    pub fn number(&self) -> &[u8]
        ensures { result.now ≡ spec.number self.now }
    {
        match self {
            Code::BadByte => b"E01",
            Code::Unclosed => b"E02",
            Code::BadNumber => b"E03",
            Code::LeftOut => b"E04",
            Code::Syntax => b"E05",
            Code::Directive => b"E06",
            Code::IncludeDepth => b"E07",
            Code::UnknownModule => b"E08",
            Code::DuplicateModule => b"E09",
            Code::Recursive => b"E10",
            Code::LoopTooLong => b"E11",
            Code::BadOverride => b"E12",
            Code::NameClash => b"E13",
            Code::NotConstant => b"E14",
            Code::ZeroDivisor => b"E15",
            Code::UnknownName => b"E16",
            Code::DuplicateName => b"E17",
            Code::BadRange => b"E18",
            Code::PortMismatch => b"E19",
            Code::OtherClock => b"E20",
            Code::ResetForm => b"E21",
            Code::BlockingInClocked => b"E22",
            Code::NonblockingInComb => b"E23",
            Code::WideArithmetic => b"E24",
            Code::MultipleDrivers => b"E25",
            Code::Latch => b"E26",
            Code::ReadBeforeWrite => b"E27",
            Code::CombLoop => b"E28",
            Code::ArrayUse => b"E29",
            Code::NoSuchModule => b"C01",
            Code::NoSuchInput => b"C02",
            Code::Clash => b"C03",
            Code::PinValue => b"C04",
            Code::NoSuchRow => b"C05",
            Code::BadKind => b"C06",
            Code::FieldCount => b"C07",
            Code::NoConnection => b"C08",
            Code::BadValue => b"C09",
            Code::DuplicateRow => b"C10",
            Code::BadLatency => b"C11",
            Code::NoSuchSignal => b"C12",
            Code::WidthMismatch => b"C13",
            Code::BadPlan => b"C14",
            Code::BadScript => b"C15",
            Code::BadTrace => b"C16",
            Code::BadDimacs => b"C17",
            Code::BadLrat => b"C18",
            Code::BadVcd => b"C19",
            Code::FileBytes => b"L01",
            Code::Tokens => b"L02",
            Code::Scopes => b"L03",
            Code::Weight => b"L04",
            Code::Rows => b"L05",
            Code::Conditions => b"L06",
            Code::Latency => b"L07",
            Code::Candidates => b"L08",
            Code::Files => b"L09",
            Code::Ports => b"L10",
        }
    }

    /// The name, as `CombLoop`. Takes no memory.
    pub fn name(&self) -> &[u8]
        ensures { result.now ≡ spec.name self.now }
    {
        match self {
            Code::BadByte => b"BadByte",
            Code::Unclosed => b"Unclosed",
            Code::BadNumber => b"BadNumber",
            Code::LeftOut => b"LeftOut",
            Code::Syntax => b"Syntax",
            Code::Directive => b"Directive",
            Code::IncludeDepth => b"IncludeDepth",
            Code::UnknownModule => b"UnknownModule",
            Code::DuplicateModule => b"DuplicateModule",
            Code::Recursive => b"Recursive",
            Code::LoopTooLong => b"LoopTooLong",
            Code::BadOverride => b"BadOverride",
            Code::NameClash => b"NameClash",
            Code::NotConstant => b"NotConstant",
            Code::ZeroDivisor => b"ZeroDivisor",
            Code::UnknownName => b"UnknownName",
            Code::DuplicateName => b"DuplicateName",
            Code::BadRange => b"BadRange",
            Code::PortMismatch => b"PortMismatch",
            Code::OtherClock => b"OtherClock",
            Code::ResetForm => b"ResetForm",
            Code::BlockingInClocked => b"BlockingInClocked",
            Code::NonblockingInComb => b"NonblockingInComb",
            Code::WideArithmetic => b"WideArithmetic",
            Code::MultipleDrivers => b"MultipleDrivers",
            Code::Latch => b"Latch",
            Code::ReadBeforeWrite => b"ReadBeforeWrite",
            Code::CombLoop => b"CombLoop",
            Code::ArrayUse => b"ArrayUse",
            Code::NoSuchModule => b"NoSuchModule",
            Code::NoSuchInput => b"NoSuchInput",
            Code::Clash => b"Clash",
            Code::PinValue => b"PinValue",
            Code::NoSuchRow => b"NoSuchRow",
            Code::BadKind => b"BadKind",
            Code::FieldCount => b"FieldCount",
            Code::NoConnection => b"NoConnection",
            Code::BadValue => b"BadValue",
            Code::DuplicateRow => b"DuplicateRow",
            Code::BadLatency => b"BadLatency",
            Code::NoSuchSignal => b"NoSuchSignal",
            Code::WidthMismatch => b"WidthMismatch",
            Code::BadPlan => b"BadPlan",
            Code::BadScript => b"BadScript",
            Code::BadTrace => b"BadTrace",
            Code::BadDimacs => b"BadDimacs",
            Code::BadLrat => b"BadLrat",
            Code::BadVcd => b"BadVcd",
            Code::FileBytes => b"FileBytes",
            Code::Tokens => b"Tokens",
            Code::Scopes => b"Scopes",
            Code::Weight => b"Weight",
            Code::Rows => b"Rows",
            Code::Conditions => b"Conditions",
            Code::Latency => b"Latency",
            Code::Candidates => b"Candidates",
            Code::Files => b"Files",
            Code::Ports => b"Ports",
        }
    }

    /// The most that a limit allows, which is passed where there is one more; 0 for a fault. Takes no memory.
    pub fn bound(&self) -> u64
        ensures { result ≡ spec.bound self.now }
    {
        match self {
            Code::FileBytes => 16_777_216,
            Code::Tokens => 4_194_304,
            Code::Scopes => 65_536,
            Code::Weight => 4_194_304,
            Code::Rows => 10_000,
            Code::Conditions => 32,
            Code::Latency => 64,
            Code::Candidates => 65_536,
            Code::Files => 1_024,
            Code::Ports => 65_536,
            _ => 0,
        }
    }
}

/// Where a fault stands: at a line of a file, given by its place in the list of files, or in the scope or at the signal of a path.
#[derive(Debug, Drop)]
pub enum Place {
    Line { file: u32, line: u32 },
    Path(Name),
}

/// A fault and its place.
#[derive(Debug, Drop)]
pub struct Fault {
    pub code: Code,
    pub place: Place,
}

/// Why a call of the front end gives no value: a fault of the input, a number that is passed, or want of memory.
#[derive(Debug, Drop)]
pub enum Stop {
    Fault(Fault),
    Limit(Code),
    NoMemory,
}

impl From<NoMemory> for Stop {
    ghost use Rattle.std.specs.Prelude.{◌≡◌};
    ghost use Rattle.vl_tree.specs.declared.faults.Stop.TheVariants.{NoMemory};

    ghost from_gives = { λ _ stop. stop ≡ NoMemory };

    fn from(_: NoMemory) -> Stop {
        Stop::NoMemory
    }
}

impl From<AllocError> for Stop {
    ghost use Rattle.std.specs.Prelude.{◌≡◌};
    ghost use Rattle.vl_tree.specs.declared.faults.Stop.TheVariants.{NoMemory};

    ghost from_gives = { λ _ stop. stop ≡ NoMemory };

    fn from(_: AllocError) -> Stop {
        Stop::NoMemory
    }
}
