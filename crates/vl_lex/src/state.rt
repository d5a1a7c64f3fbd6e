ghost use Rattle.std.specs.Prelude.{◌≡◌, ◌≤◌, ◌==◌, map, take, length, IfOk, OnOk, None};
ghost use Rattle.std.specs.Str.{bytes_eq};
ghost use Rattle.std.specs.List.{list_any, prefix_len};
ghost use Rattle.std.specs.Str as text;
ghost use Rattle.vl_lex.specs.Lexed.{placed, view};
ghost use Rattle.vl_lex.specs.Gate.{Gives, IsReason, halt_reason, fault_at};
ghost use Rattle.vl_lex.specs.Sources.{files_of};
ghost use Rattle.vl_lex.specs.Walk as spec;

use crate::branches::{is_name_kind, name_after};
use crate::bytes::{front, rest_from};
use crate::expansion::{expand, halt, marked};
use crate::gate::{Gate, Halt, fault_at};
use crate::lexer::Lined;
use crate::macros::Macros;
use crate::source::Source;
use bits_core::{Items, NoMemory};
use std::alloc::Global;
use vl_tree::{Code, Stop, TokenKind, TokenList};

/// What the walk carries from token to token: the gate, the macros with a bound on their number, whether undeclared names may be nets, the files that were named so far.
#[derive(Drop)]
pub struct State<'f> {
    pub gate: Gate<'f>,
    pub macros: Macros<'f>,
    pub defined: usize,
    pub implicit: bool,
    pub listed: Items<&'f [u8]>,
}

/// How many further tokens a directive took, and the file that it enters.
#[derive(Clone, Copy, Debug)]
pub struct Turned {
    pub more: usize,
    pub enter: Option<usize>,
}

/// So many further tokens were taken, and no file is entered.
pub fn took(more: usize) -> Turned
    ensures { (result.more ≡ more) × (result.enter ≡ None) }
{
    Turned { more, enter: None }
}

/// The tokens of a part of a line.
pub fn body_tokens<'f>(alloc: Global, lined: &[Lined<'f>]) -> Result<TokenList<'f>, NoMemory>
    ensures { IfOk result (λ tokens. tokens ≡ map (λ t. t.token) lined.now) }
{
    let mut tokens = Items::new(alloc);
    for item in lined {
        tokens.push(item.token)?;
    }
    Ok(tokens)
}

/// How many tokens are left of a line.
#[tactic(auto, using(crate::proofs::Rows::rows))]
pub fn row_len(row: u32, rest: &[Lined<'_>]) -> usize
    ensures value { result ≡ spec.row_len row (map placed rest.now) }
    ensures within { result ≤ length rest.now }
{
    row_count(row, rest)
}

fn row_count(row: u32, rest: &[Lined<'_>]) -> usize
    ensures { result ≡ prefix_len (λ t. t.row == row) rest.now }
{
    rest.iter().take_while(|item| item.row == row).count()
}

fn is_text(text: &[u8], word: &[u8]) -> bool
    ensures { result ≡ bytes_eq text.now word.now }
{
    text == word
}

fn opens_bracket(name: &Lined<'_>, rest: &[Lined<'_>]) -> bool
    ensures { result ≡ spec.opens_bracket (placed name.now) (map placed rest.now) }
{
    match rest {
        [] => false,
        [next, ..] => next.token.span.start == name.token.span.end
            && is_text(next.token.text, b"("),
    }
}

impl<'f> State<'f> {
    /// The walk ends at a directive.
    pub fn refuse(&mut self, code: Code, token: &Lined<'f>) -> Halt
        ensures { IsReason result (halt_reason (spec.state_view self.old).gate (fault_at code token.now.token.span.file token.now.token.span.line)) }
    {
        halt(
            &mut self.gate,
            fault_at(code, token.token.span.file, token.token.span.line),
        )
    }

    /// A token that is no directive.
    #[tactic(auto, unfolding(crate::specs::Walk::fed_state))]
    pub fn feed(&mut self, token: &Lined<'f>) -> Result<(), Halt>
        ensures { Gives result (spec.state_view self.new) (spec.fed_state (spec.state_view self.old) (placed token.now)) }
    {
        match self.gate.feed(marked(&token.token, self.implicit)) {
            Ok(()) => Ok(()),
            Err(halt) => Err(halt),
        }
    }

    /// A macro is undefined: its name stands next on the line.
    #[tactic(auto, unfolding(crate::specs::Walk::undef_turn))]
    pub fn undef(&mut self, token: &Lined<'f>, rest: &[Lined<'f>]) -> Result<Turned, Halt>
        ensures { spec.Acts result (spec.state_view self.new) (spec.undef_turn (spec.state_view self.old) (placed token.now) (map placed rest.now)) }
    {
        match name_after(token.row, rest) {
            None => Err(self.refuse(Code::Directive, token)),
            Some(name) => {
                let _gone = self.macros.take(name);
                Ok(took(1))
            }
        }
    }

    /// Undeclared names are nets behind `wire`, and none behind `none`; another word is refused.
    #[tactic(auto, unfolding(crate::specs::Walk::nettype_turn))]
    pub fn nettype(&mut self, token: &Lined<'f>, rest: &[Lined<'f>]) -> Result<Turned, Halt>
        ensures { spec.Acts result (spec.state_view self.new) (spec.nettype_turn (spec.state_view self.old) (placed token.now) (map placed rest.now)) }
    {
        match name_after(token.row, rest) {
            None => Err(self.refuse(Code::Directive, token)),
            Some(name) => {
                if is_text(name, b"none") {
                    self.implicit = false;
                    Ok(took(1))
                } else if is_text(name, b"wire") {
                    self.implicit = true;
                    Ok(took(1))
                } else {
                    Err(self.refuse(Code::Directive, token))
                }
            }
        }
    }

    /// A macro is defined: its name stands next on the line, its body is the rest of the line.
    #[tactic(auto, unfolding(crate::specs::Walk::define_turn))]
    pub fn define(&mut self, token: &Lined<'f>, rest: &[Lined<'f>]) -> Result<Turned, Halt>
        ensures { spec.Acts result (spec.state_view self.new) (spec.define_turn (spec.state_view self.old) (placed token.now) (map placed rest.now)) }
    {
        match rest {
            [] => Err(self.refuse(Code::Directive, token)),
            [name, behind @ ..] => {
                if name.row == token.row
                    && is_name_kind(name.token.kind)
                    && !opens_bracket(name, behind)
                {
                    let len = row_len(token.row, behind);
                    self.define_as(name.token.text, front_items(behind, len))?;
                    Ok(took(1 + len))
                } else {
                    Err(self.refuse(Code::Directive, token))
                }
            }
        }
    }

    #[tactic(auto, using(crate::proofs::Bare::bare_views))]
    fn define_as(&mut self, name: &'f [u8], body: &[Lined<'f>]) -> Result<(), NoMemory>
        ensures { OnOk result (spec.state_view self.new ≡ spec.defined_with (spec.state_view self.old) name.entry.now (spec.bare (map placed body.now))) }
    {
        let tokens = body_tokens(self.gate.alloc, body)?;
        self.macros.define(name, tokens)?;
        self.defined = self.defined.saturating_add(1);
        Ok(())
    }

    /// The use of a macro.
    #[tactic(auto, unfolding(crate::specs::Walk::macro_turn))]
    pub fn use_macro(&mut self, token: &Lined<'f>) -> Result<Turned, Halt>
        ensures { spec.Acts result (spec.state_view self.new) (spec.macro_turn (spec.state_view self.old) (placed token.now)) }
    {
        match expand(
            &mut self.gate,
            &mut self.macros,
            self.defined,
            self.implicit,
            &token.token,
        ) {
            Ok(()) => Ok(took(0)),
            Err(halt) => Err(halt),
        }
    }

    /// Whether a file of this name was named before.
    #[tactic(auto, using(crate::proofs::Rows::any_now))]
    pub fn is_listed(&self, name: &[u8]) -> bool
        ensures { result ≡ list_any (λ n. bytes_eq n name.now) (spec.state_view self.now).listed }
    {
        is_among(self.listed.as_slice(), name)
    }

    /// The file of a name is entered, or asked for.
    fn enter(&mut self, files: &[Source<'_>], name: &'f [u8]) -> Result<Turned, Halt>
        ensures { spec.Acts result (spec.state_view self.new) (spec.enter_at (spec.find_file 0 name.entry.now (files_of files.now)) (spec.state_view self.old) name.entry.now) }
    {
        match find_file(files, name) {
            None => match name.to_vec(self.gate.alloc) {
                Ok(bytes) => Err(Halt::Need(Items::of(bytes))),
                Err(_) => Err(Halt::Stop(Stop::NoMemory)),
            },
            Some(at) => Ok(Turned {
                more: 1,
                enter: Some(at),
            }),
        }
    }

    #[tactic(auto, unfolding(crate::specs::Walk::list_turn))]
    fn list(&mut self, files: &[Source<'_>], name: &'f [u8]) -> Result<Turned, Halt>
        ensures { spec.Acts result (spec.state_view self.new) (spec.list_turn (files_of files.now) (spec.state_view self.old) name.entry.now) }
    {
        if self.is_listed(name) {
            return self.enter(files, name);
        }
        if self.listed.len() >= 1024 {
            return Err(halt(&mut self.gate, Halt::Stop(Stop::Limit(Code::Files))));
        }
        self.listed.push(name)?;
        self.enter(files, name)
    }

    /// A file is included: its name stands in quotes next on the line, and a level is left for it.
    #[tactic(auto, unfolding(crate::specs::Walk::include_turn))]
    pub fn include(
        &mut self,
        levels: usize,
        files: &[Source<'_>],
        token: &Lined<'f>,
        rest: &[Lined<'f>],
    ) -> Result<Turned, Halt>
        ensures { spec.Acts result (spec.state_view self.new) (spec.include_turn levels (files_of files.now) (spec.state_view self.old) (placed token.now) (map placed rest.now)) }
    {
        match rest {
            [] => Err(self.refuse(Code::Directive, token)),
            [quoted, ..] => {
                let name = inner_text(quoted.token.text);
                if quoted.row == token.row && is_quoted(quoted.token.kind) && is_file_name(name) {
                    if levels == 0 {
                        Err(self.refuse(Code::IncludeDepth, token))
                    } else {
                        self.list(files, name)
                    }
                } else {
                    Err(self.refuse(Code::Directive, token))
                }
            }
        }
    }
}

#[tactic(auto, using(crate::proofs::Rows::body_seen))]
fn front_items<'t, 'f>(items: &'t [Lined<'f>], len: usize) -> &'t [Lined<'f>]
    ensures items { result.now ≡ take len items.now }
    ensures seen { map placed result.now ≡ take len (map placed items.now) }
{
    if len <= items.len() {
        &items[..len]
    } else {
        items
    }
}

fn is_among(names: &[&[u8]], name: &[u8]) -> bool
    ensures { result ≡ list_any (λ n. bytes_eq n.now name.now) names.now }
{
    names.iter().any(|listed| is_text(listed, name))
}

/// The place of the first file of a name. Linear in the files.
#[tactic(auto, using(crate::proofs::Rows::finds))]
pub fn find_file(files: &[Source<'_>], name: &[u8]) -> Option<usize>
    ensures { result ≡ spec.find_file 0 name.now (files_of files.now) }
{
    for (at, file) in files.iter().enumerate() {
        if is_text(file.name, name) {
            return Some(at);
        }
    }
    None
}

/// A text between quotes.
pub fn is_quoted(kind: TokenKind) -> bool
    ensures { result ≡ spec.is_quoted kind }
{
    match kind {
        TokenKind::Quoted => true,
        _ => false,
    }
}

/// The bytes between the quotes.
pub fn inner_text(text: &[u8]) -> &[u8]
    ensures { result.now ≡ spec.inner_text text.now }
{
    front(rest_from(text, 1), text.len().saturating_sub(2))
}

#[tactic(auto, using(crate::proofs::Rows::utf8))]
fn is_utf8(bytes: &[u8]) -> bool
    ensures { result ≡ text.is_utf8 bytes.now }
{
    match str::from_utf8(bytes) {
        Ok(_) => true,
        Err(_) => false,
    }
}

/// Whether bytes may be the name of a file: some, and text in UTF-8.
pub fn is_file_name(name: &[u8]) -> bool
    ensures { result ≡ spec.is_file_name name.now }
{
    !(name.len() == 0) && is_utf8(name)
}
