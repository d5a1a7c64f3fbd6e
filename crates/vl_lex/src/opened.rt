use crate::branches::Branches;
use crate::lexer::Lined;
use bits_core::Items;

/// A file that is open: the walk goes on at one of its tokens.
#[derive(Drop)]
pub struct Open<'f> {
    pub file: u32,
    /// Its last line.
    pub line: u32,
    /// How many levels of includes are left in it.
    pub levels: usize,
    pub branches: Branches,
    pub tokens: Items<Lined<'f>>,
    pub at: usize,
}

/// What a part of a walk comes to: its end, or the name of a file that is asked for, with the files that are open there, the innermost last.
#[derive(Drop)]
pub enum Passed<'f> {
    Done,
    Asks(&'f [u8], Vec<Open<'f>>),
}
