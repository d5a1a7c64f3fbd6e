ghost use Rattle.std.specs.Prelude.{◌≡◌, ◌<◌, ◌≤◌, ◌^◌, ◌++◌, List, Err, length};
ghost use Rattle.bits_core.specs.declared.names.File.{File};
ghost use Rattle.vl_lex.specs.declared.gate.Halt.TheVariants.{Need};
ghost use Rattle.vl_lex.specs.Walk.{kept, state_view};
ghost use Rattle.vl_lex.specs.Sources.{AreSmall, files_of};
ghost use Rattle.vl_lex.specs.Paused.{opens_view, remaining};

use crate::opened::Open;
use crate::source::Source;
use crate::state::State;
use bits_core::{Items, NameList};

/// A walk that asks for a file: the files so far, the named ones first, and the name that none of them has. It goes on from where it asked.
#[derive(Drop)]
pub struct Asking<'f> {
    pub sources: Items<Source<'f>>,
    pub named: usize,
    pub defines: &'f NameList,
    pub name: &'f [u8],
    pub state: State<'f>,
    /// The files that are open, the innermost last.
    pub opens: Vec<Open<'f>>,
    /// The next of the named files.
    pub next: usize,
    pub ghost within: { named ≤ length sources },
    pub ghost small: { AreSmall (files_of sources) },
    pub ghost asks: { kept (files_of sources) named defines.now ≡ Err (Need name.now) },
    pub ghost goes_on: { (more : List File) → kept (files_of sources ++ more) named defines.now ≡ remaining (files_of sources ++ more) named (opens_view opens.items) next (state_view state) },
}
