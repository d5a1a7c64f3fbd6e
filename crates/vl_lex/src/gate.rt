ghost use Rattle.std.specs.Prelude.{◌≡◌, map, Ok};
ghost use Rattle.vl_lex.specs.Gate as spec;
ghost use Rattle.vl_lex.specs.declared.gate.Halt.TheVariants as halts;
ghost use Rattle.vl_tree.specs.Words as words;
ghost use Rattle.vl_lex.specs.Lexed.{view};

use crate::numbers::is_bad_number;
use bits_core::{Items, Name, NoMemory};
use std::alloc::Global;
use std::mem;
use vl_tree::{Code, Fault, Place, Stop, Token, TokenKind, TokenList, Word, same_word, word_of};

/// What the tokens that wait are.
#[derive(Clone, Copy, Debug)]
pub enum Mode {
    /// None wait.
    Plain,
    /// `(`
    Open,
    /// `(` and `*`
    Starred,
    /// An attribute that is open.
    Inside,
    /// An attribute that is open, with `*` as the last.
    Closing,
}

/// Why a walk ends before its end.
#[derive(Debug, Drop)]
pub enum Halt {
    Stop(Stop),
    /// A file is asked for.
    Need(Name),
}

impl From<NoMemory> for Halt {
    ghost use Rattle.std.specs.Prelude.{◌≡◌};
    ghost use Rattle.vl_tree.specs.declared.faults.Stop.TheVariants.{NoMemory};
    ghost use Rattle.vl_lex.specs.declared.gate.Halt.TheVariants.{Stop};

    ghost from_gives = { λ _ halt. halt ≡ Stop NoMemory };

    fn from(_: NoMemory) -> Halt {
        Halt::Stop(Stop::NoMemory)
    }
}

/// The tokens that are kept behind the directives, and those that wait, for they may be an attribute.
#[derive(Drop)]
pub struct Gate<'f> {
    pub alloc: Global,
    pub kept: TokenList<'f>,
    pub waiting: TokenList<'f>,
    pub mode: Mode,
}

/// A fault at a line.
pub fn fault_at(code: Code, file: u32, line: u32) -> Halt
    ensures { result ≡ spec.fault_at code file line }
{
    Halt::Stop(Stop::Fault(Fault {
        code,
        place: Place::Line { file, line },
    }))
}

/// A reason that asks for no file.
pub fn stop_of(halt: Halt) -> Stop
    requires { spec.IsStop halt }
    ensures { halt ≡ halts.Stop result }
{
    match halt {
        Halt::Stop(stop) => stop,
        Halt::Need(_) => unreachable!(),
    }
}

fn is_number(kind: TokenKind) -> bool
    ensures { result ≡ spec.is_number kind }
{
    match kind {
        TokenKind::Number => true,
        _ => false,
    }
}

fn is_word(token: &Token<'_>, word: Word) -> bool
    ensures { result ≡ words.same_word (words.word token.now.kind token.now.text.now) word }
{
    same_word(word_of(token), word)
}

/// The fault of a token that is kept.
#[tactic(auto, unfolding(crate::specs::Gate::flaw_of))]
fn flaw_of(token: &Token<'_>) -> Option<Code>
    ensures { result ≡ spec.flaw_of (view token.now) }
{
    if is_number(token.kind) && is_bad_number(token.text) {
        Some(Code::BadNumber)
    } else if is_word(token, Word::LeftOut) {
        Some(Code::LeftOut)
    } else {
        None
    }
}

fn inside(token: &Token<'_>) -> Mode
    ensures { result ≡ spec.inside (words.word token.now.kind token.now.text.now) }
{
    if is_word(token, Word::Star) {
        Mode::Closing
    } else {
        Mode::Inside
    }
}

impl<'f> Gate<'f> {
    #[tactic(auto, using(crate::proofs::Gates::gates), unfolding(crate::specs::Gate::kept_one))]
    fn keep(&mut self, token: Token<'f>) -> Result<(), Halt>
        ensures { spec.Gives result (spec.gate_view self.new) (spec.kept_one (spec.gate_view self.old) (view token.entry)) }
    {
        if let Some(code) = flaw_of(&token) {
            return Err(fault_at(code, token.span.file, token.span.line));
        }
        if self.kept.len() >= 4_194_304 {
            return Err(Halt::Stop(Stop::Limit(Code::Tokens)));
        }
        self.kept.push(token)?;
        Ok(())
    }

    /// Tokens are kept in order.
    fn keep_all(&mut self, tokens: &TokenList<'f>) -> Result<(), Halt>
        ensures { spec.Gives result (spec.gate_view self.new) (spec.kept_all (map view tokens.now) (spec.gate_view self.old)) }
    {
        for token in tokens.as_slice() {
            if let Err(halt) = self.keep(*token) {
                return Err(halt);
            }
        }
        Ok(())
    }

    /// The tokens that wait are kept after all.
    #[tactic(auto, unfolding(crate::specs::Gate::flushed))]
    pub fn flush(&mut self) -> Result<(), Halt>
        ensures { spec.Gives result (spec.gate_view self.new) (spec.flushed (spec.gate_view self.old)) }
    {
        let waiting = mem::replace(&mut self.waiting, Items::new(self.alloc));
        self.mode = Mode::Plain;
        self.keep_all(&waiting)
    }

    #[tactic(auto, using(crate::proofs::Gates::gates))]
    fn wait(&mut self, token: Token<'f>, mode: Mode) -> Result<(), Halt>
        ensures { spec.Gives result (spec.gate_view self.new) (Ok (spec.waits (spec.gate_view self.old) (view token.entry) mode)) }
    {
        self.waiting.push(token)?;
        self.mode = mode;
        Ok(())
    }

    fn forget(&mut self)
        ensures { spec.gate_view self.new ≡ spec.nothing_waits (spec.gate_view self.old) }
    {
        let _dropped = mem::replace(&mut self.waiting, Items::new(self.alloc));
        self.mode = Mode::Plain;
    }

    #[tactic(auto, unfolding(crate::specs::Gate::fed_plain))]
    fn feed_plain(&mut self, token: Token<'f>) -> Result<(), Halt>
        ensures { spec.Gives result (spec.gate_view self.new) (spec.fed_plain (spec.gate_view self.old) (view token.entry)) }
    {
        if is_word(&token, Word::LeftParen) {
            self.wait(token, Mode::Open)
        } else {
            self.keep(token)
        }
    }

    fn flush_and_feed(&mut self, token: Token<'f>) -> Result<(), Halt>
        ensures { spec.Gives result (spec.gate_view self.new) (spec.and_then (spec.flushed (spec.gate_view self.old)) (λ n. spec.fed_plain n (view token.entry))) }
    {
        match self.flush() {
            Ok(()) => self.feed_plain(token),
            Err(halt) => Err(halt),
        }
    }

    fn flush_and_keep(&mut self, token: Token<'f>) -> Result<(), Halt>
        ensures { spec.Gives result (spec.gate_view self.new) (spec.and_then (spec.flushed (spec.gate_view self.old)) (λ n. spec.kept_one n (view token.entry))) }
    {
        match self.flush() {
            Ok(()) => self.keep(token),
            Err(halt) => Err(halt),
        }
    }

    /// A token behind the directives: dropped with its attribute, or kept once it is known to be in none.
    #[tactic(auto, unfolding(crate::specs::Gate::fed))]
    pub fn feed(&mut self, token: Token<'f>) -> Result<(), Halt>
        ensures { spec.Gives result (spec.gate_view self.new) (spec.fed (spec.gate_view self.old) (view token.entry) self.old.mode) }
    {
        match self.mode {
            Mode::Plain => self.feed_plain(token),
            Mode::Open => {
                if is_word(&token, Word::Star) {
                    self.wait(token, Mode::Starred)
                } else {
                    self.flush_and_feed(token)
                }
            }
            Mode::Starred => {
                if is_word(&token, Word::RightParen) {
                    self.flush_and_keep(token)
                } else {
                    self.wait(token, inside(&token))
                }
            }
            Mode::Inside => self.wait(token, inside(&token)),
            Mode::Closing => {
                if is_word(&token, Word::RightParen) {
                    self.forget();
                    Ok(())
                } else {
                    self.wait(token, inside(&token))
                }
            }
        }
    }
}
