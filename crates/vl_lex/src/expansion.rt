ghost use Rattle.std.specs.Prelude.{◌≡◌, ◌<◌, ◌+◌, [], ◌∷◌, map, Some, None, OnOk, OnErr, OnSome, IfOk, IfErr};
ghost use Rattle.vl_lex.specs.Lexed.{view};
ghost use Rattle.vl_lex.specs.Gate.{Gives, IsReason, and_then, gate_view, halt_reason};
ghost use Rattle.vl_lex.specs.Calls as calling;
ghost use Rattle.vl_lex.specs.Macros as spec;

use crate::bytes::rest_from;
use crate::calls::{Call, open};
use crate::directives::{Directive, directive_of, is_directive};
use crate::gate::{Gate, Halt, fault_at};
use crate::macros::Macros;
use vl_tree::{Code, Token, TokenList};

/// The name behind the backquote of a directive.
pub fn directive_name<'f>(token: &Token<'f>) -> &'f [u8]
    ensures { result.now ≡ spec.directive_name (view token.now) }
{
    rest_from(token.text, 1)
}

/// A token as it is kept, where undeclared names may be nets or not.
pub fn marked<'f>(token: &Token<'f>, implicit: bool) -> Token<'f>
    ensures { view result ≡ spec.marked implicit (view token.now) }
{
    Token {
        kind: token.kind,
        text: token.text,
        span: token.span,
        implicit,
    }
}

fn code_of(directive: Directive) -> Code
    ensures { result ≡ spec.code_of directive }
{
    match directive {
        Directive::UnconnectedDrive => Code::LeftOut,
        _ => Code::Directive,
    }
}

#[tactic(auto, unfolding(crate::specs::Macros::expansion_fault))]
fn expansion_fault(token: &Token<'_>) -> Halt
    ensures { result ≡ spec.expansion_fault (view token.now) }
{
    fault_at(
        code_of(directive_of(rest_from(token.text, 1))),
        token.span.file,
        token.span.line,
    )
}

/// The walk ends for a reason of its own: the tokens that wait are kept first, and a fault among them comes before.
#[tactic(auto, unfolding(crate::specs::Gate::halt_reason))]
pub fn halt<'f>(gate: &mut Gate<'f>, reason: Halt) -> Halt
    ensures { IsReason result (halt_reason (gate_view gate.old) reason) }
{
    match gate.flush() {
        Ok(()) => reason,
        Err(halt) => halt,
    }
}

/// The body of the macro that a token names, taken out of the macros.
#[tactic(auto, unfolding(crate::specs::Macros::body_of))]
fn take_body<'f>(macros: &mut Macros<'f>, token: &Token<'f>) -> Option<TokenList<'f>>
    ensures body { spec.seen_body result ≡ spec.body_of (spec.look macros.old) (view token.now) }
    ensures gone { OnSome result (spec.look macros.new ≡ spec.updated (spec.look macros.old) (spec.directive_name (view token.now)) None) }
{
    let name = directive_name(token);
    match directive_of(name) {
        Directive::Macro => macros.take(name),
        _ => None,
    }
}

/// The body that a directive stands for inside a body that is expanded, or the end of the walk.
fn called_body<'f>(
    gate: &mut Gate<'f>,
    macros: &mut Macros<'f>,
    depth: usize,
    token: &Token<'f>,
) -> Result<TokenList<'f>, Halt>
    ensures ok { IfOk result (λ b. (0 < depth) × (spec.body_of (spec.look macros.old) (view token.now) ≡ Some (map view b))) }
    ensures gone { OnOk result (spec.look macros.new ≡ spec.updated (spec.look macros.old) (spec.directive_name (view token.now)) None) }
    ensures still { OnOk result (gate_view gate.new ≡ gate_view gate.old) }
    ensures none { IfErr result (λ e. IsReason e (halt_reason (gate_view gate.old) (spec.expansion_fault (view token.now)))) }
    ensures cause { OnErr result (0 < depth → spec.body_of (spec.look macros.old) (view token.now) ≡ None) }
{
    if depth > 0 {
        if let Some(body) = take_body(macros, token) {
            return Ok(body);
        }
    }
    Err(halt(gate, expansion_fault(token)))
}

/// A token of a body: it goes through the gate, or the body of the macro that it names is opened.
fn expand_token<'f>(
    gate: &mut Gate<'f>,
    macros: &mut Macros<'f>,
    calls: &mut Vec<Call<'f>>,
    levels: usize,
    implicit: bool,
    token: &Token<'f>,
) -> Result<(), Halt>
    ensures turns { calling.Turns result (calling.unwound implicit (spec.look macros.new) (calling.calls_view calls.new.items) (gate_view gate.new)) (and_then (spec.body_token levels (spec.look macros.old) implicit (view token.now) (gate_view gate.old)) (calling.unwound implicit (spec.look macros.old) (calling.calls_view calls.old.items))) }
    ensures still { OnOk result (calling.table_behind (spec.look macros.new) (calling.calls_view calls.new.items) ≡ calling.table_behind (spec.look macros.old) (calling.calls_view calls.old.items)) }
    ensures fewer { OnOk result (calling.turns_left (spec.look macros.new) (calling.calls_view calls.new.items) < calling.turns_of levels (spec.look macros.old) (view token.now) + calling.turns_left (spec.look macros.old) (calling.calls_view calls.old.items)) }
{
    if !is_directive(token.kind) {
        return gate.feed(marked(token, implicit));
    }
    let body = match called_body(gate, macros, levels, token) {
        Ok(body) => body,
        Err(halt) => return Err(halt),
    };
    let call = Call {
        levels: levels - 1,
        name: directive_name(token),
        body,
        at: 0,
    };
    open(calls, call)?;
    Ok(())
}

/// A turn of the innermost body: its next token, or its end, behind which its macro is defined again.
fn turn<'f>(
    gate: &mut Gate<'f>,
    macros: &mut Macros<'f>,
    calls: &mut Vec<Call<'f>>,
    implicit: bool,
    inner: Call<'f>,
) -> Result<(), Halt>
    ensures turns { calling.Turns result (calling.unwound implicit (spec.look macros.new) (calling.calls_view calls.new.items) (gate_view gate.new)) (calling.unwound implicit (spec.look macros.old) (calling.call_view inner.entry ∷ calling.calls_view calls.old.items) (gate_view gate.old)) }
    ensures still { OnOk result (calling.table_behind (spec.look macros.new) (calling.calls_view calls.new.items) ≡ calling.table_behind (spec.look macros.old) (calling.call_view inner.entry ∷ calling.calls_view calls.old.items)) }
    ensures fewer { OnOk result (calling.turns_left (spec.look macros.new) (calling.calls_view calls.new.items) < calling.turns_left (spec.look macros.old) (calling.call_view inner.entry ∷ calling.calls_view calls.old.items)) }
{
    let Call {
        levels,
        name,
        body,
        at,
    } = inner;
    if at >= body.len() {
        macros.define(name, body)?;
        return Ok(());
    }
    let token = *body.get(at);
    let behind = Call {
        levels,
        name,
        body,
        at: at + 1,
    };
    open(calls, behind)?;
    expand_token(gate, macros, calls, levels, implicit, &token)
}

/// A token goes through the gate, or the tokens of the macro that it names do, each macro among them expanded. At most `levels` macros nest, which is no less than the macros that are defined.
/// How deep they nest takes no stack. Linear in the tokens of the macros that are used.
pub fn expand<'f>(
    gate: &mut Gate<'f>,
    macros: &mut Macros<'f>,
    levels: usize,
    implicit: bool,
    token: &Token<'f>,
) -> Result<(), Halt>
    ensures gives { Gives result (gate_view gate.new) (spec.expanded levels (spec.look macros.old) implicit (view token.now ∷ []) (gate_view gate.old)) }
    ensures still { OnOk result (spec.look macros.new ≡ spec.look macros.old) }
{
    let mut calls = Vec::new(gate.alloc);
    if let Err(halt) = expand_token(gate, macros, &mut calls, levels, implicit, token) {
        return Err(halt);
    }
    while let Some(inner) = calls.pop() {
        if let Err(halt) = turn(gate, macros, &mut calls, implicit, inner) {
            return Err(halt);
        }
    }
    Ok(())
}
