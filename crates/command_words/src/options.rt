// The options of a command, in their parts.
use bits_core::{Items, Name, NameList};

/// What a reset was given: the port, its asserted value, and for how many cycles it holds.
#[derive(Debug, Drop)]
pub struct ResetWord {
    pub name: Name,
    pub asserted: bool,
    pub cycles: u32,
}

/// What a pin was given: its signal, and the text of its value.
#[derive(Debug, Drop)]
pub struct PinWord {
    pub signal: Name,
    pub value: Name,
}

/// The values of the options. One that a command does not have is empty, or has its usual value.
#[derive(Debug, Drop)]
pub struct Options {
    pub top: Name,
    pub clocks: NameList,
    pub reset: Option<ResetWord>,
    pub pins: Items<PinWord>,
    pub defines: NameList,
    pub boxes: NameList,
    pub stubs: NameList,
    pub depth: u32,
    pub budget: u32,
}
