ghost use Rattle.std.specs.Prelude.{◌≡◌, ◌≤◌, ◌<◌, ◌+◌, ◌^◌, [], ◌∷◌, ◌++◌, List, map, length, OnOk, IfOk};
ghost use Rattle.bits_core.specs.declared.names.File.{File};
ghost use Rattle.vl_lex.specs.Walk as spec;
ghost use Rattle.vl_lex.specs.Sources.{AreSmall, files_of};
ghost use Rattle.vl_lex.specs.Paused.{Passes, opens_view, remaining, resumed};
ghost use Rattle.vl_lex.specs.Resumed as answers;

use crate::asking::Asking;
use crate::files::Files;
use crate::gate::{Gate, Mode, stop_of};
use crate::macros::Macros;
use crate::opened::{Open, Passed};
use crate::resume::{open_file, walk_open};
use crate::source::Source;
use crate::state::State;
use bits_core::{Items, Name, NameList, NoMemory};
use std::alloc::Global;
use std::mem;
use vl_tree::{Code, Stop, TokenList};

/// What a walk over the files gives: the whole list of kept tokens, or the name of a file that it asks for.
#[derive(Drop)]
pub enum Walk<'f> {
    Tokens(TokenList<'f>),
    Need(Name),
}

/// What a walk gives that goes on where it asked for a file: the whole list of kept tokens, or the walk where it asks.
#[derive(Drop)]
pub enum Walked<'f> {
    Tokens(TokenList<'f>),
    Asks(Asking<'f>),
}

fn source_names<'f>(
    alloc: Global,
    files: &[Source<'f>],
    named: usize,
) -> Result<Items<&'f [u8]>, NoMemory>
    requires { named ≤ length files.now }
    ensures { IfOk result (λ names. map (λ n. n.now) names ≡ spec.named_sources (files_of files.now) named) }
{
    let mut names = Items::new(alloc);
    for index in 0..named {
        names.push(files[index].name)?;
    }
    Ok(names)
}

fn start_state<'f>(alloc: Global, listed: Items<&'f [u8]>) -> State<'f>
    ensures { spec.state_view result ≡ spec.start (map (λ n. n.now) listed.entry) }
{
    State {
        gate: Gate {
            alloc,
            kept: Items::new(alloc),
            waiting: Items::new(alloc),
            mode: Mode::Plain,
        },
        macros: Macros::new(alloc),
        defined: 0,
        implicit: true,
        listed,
    }
}

fn define_empty<'f>(state: &mut State<'f>, name: &'f [u8]) -> Result<(), NoMemory>
    ensures { OnOk result (spec.state_view state.new ≡ spec.defined_with (spec.state_view state.old) name.entry.now []) }
{
    state.macros.define(name, Items::new(state.gate.alloc))?;
    state.defined = state.defined.saturating_add(1);
    Ok(())
}

#[tactic(auto, using(crate::proofs::Sources::defines))]
fn predefine<'f>(state: &mut State<'f>, defines: &'f NameList) -> Result<(), NoMemory>
    ensures { OnOk result (spec.state_view state.new ≡ spec.predefined defines.now (spec.state_view state.old)) }
{
    for name in defines.as_slice() {
        define_empty(state, name.as_slice())?;
    }
    Ok(())
}

/// Open files inside others.
fn inside<'f>(mut outer: Vec<Open<'f>>, mut inner: Vec<Open<'f>>) -> Result<Vec<Open<'f>>, NoMemory>
    ensures { IfOk result (λ opens. opens.items ≡ outer.entry.items ++ inner.entry.items) }
{
    outer.append(&mut inner)?;
    Ok(outer)
}

/// The rests of the open files, the innermost first.
fn walk_opens<'f>(
    files: &[Source<'f>],
    mut opens: Vec<Open<'f>>,
    state: &mut State<'f>,
) -> Result<Passed<'f>, Stop>
    requires few { length files.now < 2 ^ 32 }
    requires small { AreSmall (files_of files.now) }
    ensures { Passes result (files_of files.now) (λ fs. resumed fs (opens_view opens.entry.items) (spec.state_view state.old)) (spec.state_view state.new) }
{
    while let Some(open) = opens.pop() {
        match walk_open(files, open, state) {
            Ok(Passed::Done) => {}
            Ok(Passed::Asks(name, inner)) => {
                return Ok(Passed::Asks(name, inside(opens, inner)?));
            }
            Err(stop) => return Err(stop),
        }
    }
    Ok(Passed::Done)
}

/// The named files from a place on, and with which of them the walk goes on.
fn walk_named<'f>(
    files: &[Source<'f>],
    named: usize,
    next: usize,
    state: &mut State<'f>,
) -> Result<(Passed<'f>, usize), Stop>
    requires within { named ≤ length files.now }
    requires few { length files.now < 2 ^ 32 }
    requires small { AreSmall (files_of files.now) }
    ensures { answers.PassesNamed result (files_of files.now) named next (spec.state_view state.old) (spec.state_view state.new) }
{
    for index in next..named {
        let open = match open_file(files, 15, index, state) {
            Ok(open) => open,
            Err(stop) => return Err(stop),
        };
        match walk_open(files, open, state) {
            Ok(Passed::Done) => {}
            Ok(Passed::Asks(name, opens)) => return Ok((Passed::Asks(name, opens), index + 1)),
            Err(stop) => return Err(stop),
        }
    }
    Ok((Passed::Done, named))
}

/// The end of the walk: what waits is kept.
fn finish<'f>(state: &mut State<'f>) -> Result<TokenList<'f>, Stop>
    ensures { spec.KeepsTokens result (spec.finished (spec.state_view state.old)) }
{
    let nothing = Items::new(state.gate.alloc);
    match state.gate.flush() {
        Ok(()) => Ok(mem::replace(&mut state.gate.kept, nothing)),
        Err(halt) => Err(stop_of(halt)),
    }
}

/// The walk goes on with the next named file.
fn go_named<'f>(
    sources: Items<Source<'f>>,
    named: usize,
    defines: &'f NameList,
    next: usize,
    mut state: State<'f>,
) -> Result<Walked<'f>, Stop>
    requires within { named ≤ length sources }
    requires few { length sources < 2 ^ 32 }
    requires small { AreSmall (files_of sources) }
    requires goes_on { (more : List File) → spec.kept (files_of sources ++ more) named defines.now ≡ remaining (files_of sources ++ more) named [] next (spec.state_view state) }
    ensures answer { answers.WalksTo result (spec.kept (files_of sources.entry) named defines.now) }
    ensures files { IfOk result (answers.IsOver (files_of sources.entry) named defines.now) }
{
    let (passed, next) = match walk_named(sources.as_slice(), named, next, &mut state) {
        Ok(pair) => pair,
        Err(stop) => return Err(stop),
    };
    match passed {
        Passed::Done => match finish(&mut state) {
            Ok(tokens) => Ok(Walked::Tokens(tokens)),
            Err(stop) => Err(stop),
        },
        Passed::Asks(name, opens) => Ok(Walked::Asks(Asking {
            sources,
            named,
            defines,
            name,
            state,
            opens,
            next,
        })),
    }
}

/// The walk goes on.
fn go<'f>(
    sources: Items<Source<'f>>,
    named: usize,
    defines: &'f NameList,
    opens: Vec<Open<'f>>,
    next: usize,
    mut state: State<'f>,
) -> Result<Walked<'f>, Stop>
    requires within { named ≤ length sources }
    requires few { length sources < 2 ^ 32 }
    requires small { AreSmall (files_of sources) }
    requires goes_on { (more : List File) → spec.kept (files_of sources ++ more) named defines.now ≡ remaining (files_of sources ++ more) named (opens_view opens.items) next (spec.state_view state) }
    ensures answer { answers.WalksTo result (spec.kept (files_of sources.entry) named defines.now) }
    ensures files { IfOk result (answers.IsOver (files_of sources.entry) named defines.now) }
{
    match walk_opens(sources.as_slice(), opens, &mut state) {
        Ok(Passed::Done) => go_named(sources, named, defines, next, state),
        Ok(Passed::Asks(name, opens)) => Ok(Walked::Asks(Asking {
            sources,
            named,
            defines,
            name,
            state,
            opens,
            next,
        })),
        Err(stop) => Err(stop),
    }
}

/// The tokens that are kept when the directives are obeyed over the named files, the first of the sources, in order; the others are files that these include.
/// Where an included file is not among them, the walk asks for it, and goes on from there once it is given.
/// The first fault or limit in the order of the walk is the answer: `BadByte` and `Unclosed` where the walk of their file begins, `BadNumber` and `LeftOut` of a token that is kept,
/// `Directive`, `IncludeDepth` and `LeftOut` of a directive, the limits `Tokens` and `Files`.
///
/// Linear in the bytes of the files, each as often as it is included, and in the tokens of the macros that are used.
pub fn start_walk<'f>(
    alloc: Global,
    sources: Items<Source<'f>>,
    named: usize,
    defines: &'f NameList,
) -> Result<Walked<'f>, Stop>
    requires within { named ≤ length sources }
    requires few { length sources < 2 ^ 32 }
    requires small { AreSmall (files_of sources) }
    ensures answer { answers.WalksTo result (spec.kept (files_of sources.entry) named defines.now) }
    ensures files { IfOk result (answers.IsOver (files_of sources.entry) named defines.now) }
{
    if named > 1024 {
        return Err(Stop::Limit(Code::Files));
    }
    let mut state = start_state(alloc, source_names(alloc, sources.as_slice(), named)?);
    predefine(&mut state, defines)?;
    go(sources, named, defines, Vec::new(alloc), 0, state)
}

impl<'f> Asking<'f> {
    /// The walk goes on with the file that it asked for. What it answers is what a walk from the start over all files answers. Linear in what is left of the walk.
    pub fn go_on(self, bytes: &'f [u8]) -> Result<Walked<'f>, Stop>
        requires few { length self.sources + 1 < 2 ^ 32 }
        requires small { length bytes.now ≤ 2 ^ 24 }
        ensures answer { answers.WalksTo result (spec.kept (files_of self.entry.sources ++ (record { name = self.entry.name.now; bytes = bytes.entry.now }) ∷ []) self.entry.named self.entry.defines.now) }
        ensures files { IfOk result (answers.IsOver (files_of self.entry.sources ++ (record { name = self.entry.name.now; bytes = bytes.entry.now }) ∷ []) self.entry.named self.entry.defines.now) }
    {
        let Asking {
            mut sources,
            named,
            defines,
            name,
            state,
            opens,
            next,
        } = self;
        sources.push(Source { name, bytes })?;
        go(sources, named, defines, opens, next, state)
    }
}

#[tactic(auto, using(crate::proofs::Sources::sources_turn))]
fn sources_of<'f>(alloc: Global, files: &'f Files) -> Result<Items<Source<'f>>, NoMemory>
    ensures { IfOk result (λ sources. files_of sources ≡ files.now.list) }
{
    let mut sources = Items::new(alloc);
    for file in files.list.as_slice() {
        sources.push(Source {
            name: file.name.as_slice(),
            bytes: file.bytes.as_slice(),
        })?;
    }
    Ok(sources)
}

/// The walk over files that stand in one list: the kept tokens as `start_walk` gives them, or the name of the first included file that is not among the files.
pub fn preprocess<'f>(
    alloc: Global,
    files: &'f Files,
    defines: &'f NameList,
) -> Result<Walk<'f>, Stop>
    ensures { spec.Walks result (spec.kept files.now.list files.now.named defines.now) }
{
    match start_walk(alloc, sources_of(alloc, files)?, files.named, defines) {
        Ok(Walked::Tokens(tokens)) => Ok(Walk::Tokens(tokens)),
        Ok(Walked::Asks(asking)) => match asking.name.to_vec(alloc) {
            Ok(name) => Ok(Walk::Need(Items::of(name))),
            Err(_) => Err(Stop::NoMemory),
        },
        Err(stop) => Err(stop),
    }
}
