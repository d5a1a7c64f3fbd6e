ghost use Rattle.std.specs.Prelude.{◌≡◌, ◌<◌, ◌≤◌, ◌+◌, ◌^◌, List, map, drop, length, None, IfOk, IfErr, OnOk};
ghost use Rattle.vl_lex.specs.declared.lexer.Lined as lexer;
ghost use Rattle.vl_lex.specs.Lexed.{placed, file_tokens};
ghost use Rattle.vl_lex.specs.Macros.{look};
ghost use Rattle.vl_lex.specs.Gate.{Gives, gate_view};
ghost use Rattle.vl_lex.specs.Sources.{files_of};
ghost use Rattle.vl_lex.specs.Walk as spec;

use crate::branches::{Branches, branch_turn};
use crate::directives::{Directive, directive_of, is_directive};
use crate::expansion::{directive_name, halt};
use crate::gate::{Gate, Halt, fault_at};
use crate::lexer::{Lined, lex_rows, newlines};
use crate::source::Source;
use crate::state::{State, Turned, row_len, took};
use bits_core::Items;
use vl_tree::{Code, Stop};

#[tactic(auto, unfolding(crate::specs::Walk::act))]
fn act<'f>(
    levels: usize,
    files: &[Source<'_>],
    directive: Directive,
    state: &mut State<'f>,
    token: &Lined<'f>,
    rest: &[Lined<'f>],
) -> Result<Turned, Halt>
    ensures { spec.Acts result (spec.state_view state.new) (spec.act levels (files_of files.now) directive (spec.state_view state.old) (placed token.now) (map placed rest.now)) }
{
    match directive {
        Directive::Define => state.define(token, rest),
        Directive::Undef => state.undef(token, rest),
        Directive::Include => state.include(levels, files, token, rest),
        Directive::DefaultNettype => state.nettype(token, rest),
        Directive::ResetAll => {
            state.implicit = true;
            Ok(took(0))
        }
        Directive::DropsLine => Ok(took(row_len(token.row, rest))),
        Directive::UnconnectedDrive => Err(state.refuse(Code::LeftOut, token)),
        Directive::Macro => state.use_macro(token),
        Directive::Nothing
        | Directive::IfDef
        | Directive::IfNdef
        | Directive::ElsIf
        | Directive::Else
        | Directive::EndIf => Ok(took(0)),
    }
}

fn is_branch_word(directive: Directive) -> bool
    ensures { result ≡ spec.is_branch_word directive }
{
    match directive {
        Directive::IfDef
        | Directive::IfNdef
        | Directive::ElsIf
        | Directive::Else
        | Directive::EndIf => true,
        _ => false,
    }
}

#[tactic(auto, unfolding(crate::specs::Walk::directive_step))]
fn directive_step<'f>(
    levels: usize,
    files: &[Source<'_>],
    directive: Directive,
    branches: &mut Branches,
    state: &mut State<'f>,
    token: &Lined<'f>,
    rest: &[Lined<'f>],
) -> Result<Turned, Halt>
    ensures { spec.Steps result (spec.branches_view branches.new) (spec.state_view state.new) (spec.directive_step levels (files_of files.now) directive (spec.branches_view branches.old) (spec.state_view state.old) (placed token.now) (map placed rest.now)) }
{
    if is_branch_word(directive) {
        return match branch_turn(branches, &state.macros, directive, token.row, rest) {
            Ok(Some(more)) => Ok(took(more)),
            Ok(None) => Err(state.refuse(Code::Directive, token)),
            Err(no_memory) => Err(Halt::from(no_memory)),
        };
    }
    if branches.active {
        act(levels, files, directive, state, token, rest)
    } else {
        Ok(took(0))
    }
}

/// A token of a file.
#[tactic(auto, unfolding(crate::specs::Walk::step))]
pub fn step<'f>(
    levels: usize,
    files: &[Source<'_>],
    branches: &mut Branches,
    state: &mut State<'f>,
    token: &Lined<'f>,
    rest: &[Lined<'f>],
) -> Result<Turned, Halt>
    ensures { spec.Steps result (spec.branches_view branches.new) (spec.state_view state.new) (spec.step levels (files_of files.now) (spec.branches_view branches.old) (spec.state_view state.old) (placed token.now) (map placed rest.now)) }
{
    if is_directive(token.token.kind) {
        return directive_step(
            levels,
            files,
            directive_of(directive_name(&token.token)),
            branches,
            state,
            token,
            rest,
        );
    }
    if !branches.active {
        return Ok(took(0));
    }
    match state.feed(token) {
        Ok(()) => Ok(took(0)),
        Err(halt) => Err(halt),
    }
}

/// The tokens of a file; its first fault ends the walk.
#[tactic(auto, using(crate::proofs::Walks::lexes))]
pub fn lex_file<'f>(
    gate: &mut Gate<'f>,
    file: u32,
    bytes: &'f [u8],
) -> Result<Items<Lined<'f>>, Halt>
    requires { length bytes.now ≤ 2 ^ 24 }
    ensures ok { IfOk result (λ lined. (map placed lined ≡ (file_tokens file bytes.now).tokens) × ((file_tokens file bytes.now).flaw ≡ None)) }
    ensures still { OnOk result (gate_view gate.new ≡ gate_view gate.old) }
    ensures err { IfErr result (λ e. spec.LexHalts e (gate_view gate.old) (file_tokens file bytes.now).flaw) }
{
    match lex_rows(gate.alloc, file, bytes) {
        Ok(lined) => Ok(lined),
        Err(Stop::Fault(fault)) => Err(halt(gate, Halt::Stop(Stop::Fault(fault)))),
        Err(Stop::Limit(code)) => Err(Halt::Stop(Stop::Limit(code))),
        Err(Stop::NoMemory) => Err(Halt::Stop(Stop::NoMemory)),
    }
}

/// The line of the end of a file.
pub fn last_line(bytes: &[u8]) -> u32
    requires { length bytes.now ≤ 2 ^ 24 }
    ensures { result ≡ spec.last_line bytes.now }
{
    let lines = newlines(bytes) + 1;
    if ends_line(bytes) {
        (lines - 1) as u32
    } else {
        lines as u32
    }
}

#[tactic(auto, using(crate::proofs::Walks::line_ends))]
fn ends_line(bytes: &[u8]) -> bool
    ensures { result ≡ spec.ends_line bytes.now }
{
    match bytes {
        [] => false,
        [.., last] => *last == b'\n',
    }
}

/// The end of a file, where each branch is to be closed.
pub fn end_of_file<'f>(branches: &Branches, state: &mut State<'f>, end: Halt) -> Result<(), Halt>
    ensures { Gives result (spec.state_view state.new) (spec.ended (spec.branches_view branches.now).stack (spec.state_view state.old) end) }
{
    match branches.stack.as_slice() {
        [] => Ok(()),
        [..] => Err(halt(&mut state.gate, end)),
    }
}

/// The place behind a token and those that it took.
#[tactic(auto, using(crate::proofs::Walks::past_end))]
pub fn past(at: usize, more: usize, len: usize) -> usize
    requires { at < len }
    ensures place { (xs : List lexer.Lined) → length xs ≡ len → drop result xs ≡ drop (at + 1 + more) xs }
    ensures later { at < result }
    ensures within { result ≤ len }
{
    if more < len - at { at + 1 + more } else { len }
}

/// The file that is entered, where a level is left for it.
pub fn reachable(levels: usize, enter: Option<usize>) -> Option<usize>
    ensures { result ≡ spec.reachable levels enter }
{
    if levels == 0 { None } else { enter }
}

/// The items from a place on, none behind the end.
pub fn rest_items<'t, 'f>(items: &'t [Lined<'f>], at: usize) -> &'t [Lined<'f>]
    ensures { result.now ≡ drop at items.now }
{
    if at <= items.len() { &items[at..] } else { &[] }
}
