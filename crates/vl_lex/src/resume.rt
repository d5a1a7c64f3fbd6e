ghost use Rattle.std.specs.Prelude.{◌≡◌, ◌<◌, ◌≤◌, ◌^◌, ◌∷◌, ◌++◌, List, length, IfOk, IfErr};
ghost use Rattle.vl_lex.specs.declared.gate.Halt.TheVariants as h;
ghost use Rattle.vl_lex.specs.Gate.{Ends};
ghost use Rattle.bits_core.specs.declared.names.File.{File};
ghost use Rattle.vl_lex.specs.Walk as walk;
ghost use Rattle.vl_lex.specs.Sources.{AreSmall, files_of};
ghost use Rattle.vl_lex.specs.Paused as spec;

use crate::asked::asked;
use crate::branches::Branches;
use crate::gate::{fault_at, stop_of};
use crate::opened::{Open, Passed};
use crate::source::Source;
use crate::state::State;
use crate::walk::{end_of_file, last_line, lex_file, past, reachable, rest_items, step};
use bits_core::NoMemory;
use std::alloc::Global;
use vl_tree::{Code, Stop};

/// A file is opened, at its first token.
pub fn open_file<'f>(
    files: &[Source<'f>],
    levels: usize,
    index: usize,
    state: &mut State<'f>,
) -> Result<Open<'f>, Stop>
    requires few { length files.now < 2 ^ 32 }
    requires small { AreSmall (files_of files.now) }
    requires there { index < length files.now }
    ensures levels { IfOk result (λ o. o.levels ≡ levels) }
    ensures opens { IfOk result (λ o. (more : List File) → spec.walked_open (files_of files.now ++ more) (spec.open_view o) (walk.state_view state.new) ≡ walk.walked_file levels (files_of files.now ++ more) index (walk.state_view state.old)) }
    ensures err { IfErr result (λ e. Ends (h.Stop e) (walk.walked_file levels (files_of files.now) index (walk.state_view state.old))) }
{
    let bytes = files[index].bytes;
    let tokens = match lex_file(&mut state.gate, index as u32, bytes) {
        Ok(tokens) => tokens,
        Err(halt) => return Err(stop_of(halt)),
    };
    Ok(Open {
        file: index as u32,
        line: last_line(bytes),
        levels,
        branches: Branches::new(state.gate.alloc),
        tokens,
        at: 0,
    })
}

/// An open file round others.
fn around<'f>(
    alloc: Global,
    outer: Open<'f>,
    mut inner: Vec<Open<'f>>,
) -> Result<Vec<Open<'f>>, NoMemory>
    ensures { IfOk result (λ opens. opens.items ≡ outer.entry ∷ inner.entry.items) }
{
    let mut opens = Vec::new(alloc);
    opens.push(outer)?;
    opens.append(&mut inner)?;
    Ok(opens)
}

/// The rest of an open file and all that it includes. Linear in its tokens and in the tokens of the macros that it uses; as deep as the levels that are left.
pub fn walk_open<'f>(
    files: &[Source<'f>],
    outer: Open<'f>,
    state: &mut State<'f>,
) -> Result<Passed<'f>, Stop>
    requires few { length files.now < 2 ^ 32 }
    requires small { AreSmall (files_of files.now) }
    ensures { spec.Passes result (files_of files.now) (λ fs. spec.walked_open fs (spec.open_view outer.entry) (walk.state_view state.old)) (walk.state_view state.new) }
{
    let Open {
        file,
        line,
        levels,
        mut branches,
        tokens,
        mut at,
    } = outer;
    let alloc = state.gate.alloc;
    while at < tokens.len() {
        let items = tokens.as_slice();
        let token = tokens.get(at);
        let rest = rest_items(items, at + 1);
        if let Some(name) = asked(levels, files, &branches, state, token, rest) {
            let here = Open {
                file,
                line,
                levels,
                branches,
                tokens,
                at,
            };
            return Ok(Passed::Asks(name, around(alloc, here, Vec::new(alloc))?));
        }
        let turned = match step(levels, files, &mut branches, state, token, rest) {
            Ok(turned) => turned,
            Err(halt) => return Err(stop_of(halt)),
        };
        at = past(at, turned.more, items.len());
        if let Some(entered) = reachable(levels, turned.enter) {
            let inner = match open_file(files, levels - 1, entered, state) {
                Ok(inner) => inner,
                Err(stop) => return Err(stop),
            };
            match walk_open(files, inner, state) {
                Ok(Passed::Done) => {}
                Ok(Passed::Asks(name, opens)) => {
                    let here = Open {
                        file,
                        line,
                        levels,
                        branches,
                        tokens,
                        at,
                    };
                    return Ok(Passed::Asks(name, around(alloc, here, opens)?));
                }
                Err(stop) => return Err(stop),
            }
        }
    }
    match end_of_file(&branches, state, fault_at(Code::Directive, file, line)) {
        Ok(()) => Ok(Passed::Done),
        Err(halt) => Err(stop_of(halt)),
    }
}
