use bits_core::Items;

/// A bit of a signal: the signal's number, and the bit's place, 0 for the lowest.
#[derive(Clone, Copy, Debug, PartialEq, Eq)]
pub struct BitRef {
    pub signal: u32,
    pub bit: u32,
}

/// A list of bits of signals.
pub type BitList = Items<BitRef>;

/// Items by their places in the design.
pub type ItemNumbers = Items<u32>;

/// Scopes by their places in the design.
pub type ScopeNumbers = Items<u32>;
