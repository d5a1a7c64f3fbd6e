use bits_core::{Items, Name};

/// A scope: the scope round it (none for the root alone), its name and path, and its module (empty for a generate block).
#[derive(Drop)]
pub struct Scope {
    pub parent: Option<u32>,
    pub name: Name,
    pub path: Name,
    pub module: Name,
}

/// A signal: its scope, its name and path, the index of an array's word, its length and sign, and its bounds as declared.
/// `ranged` is true for a declared range and for an `integer`.
#[derive(Drop)]
pub struct Signal {
    pub scope: u32,
    pub name: Name,
    pub path: Name,
    pub word: Option<i64>,
    pub length: u32,
    pub signed: bool,
    pub ranged: bool,
    pub high: i64,
    pub low: i64,
}

pub type DScopes = Items<Scope>;

pub type SignalList = Items<Signal>;
