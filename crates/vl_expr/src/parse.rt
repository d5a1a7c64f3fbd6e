ghost use Rattle.std.specs.Prelude.{◌≡◌, ℕ, suc, ◌+◌, ◌-◌, ◌<◌, ◌≤◌, true, IfOk, IfErr, [], length, take, drop};
ghost use Rattle.vl_tree.specs.Words.{next};
ghost use Rattle.vl_tree.specs.declared.expressions.Expr as tree;
ghost use Rattle.vl_tree.specs.declared.faults.Place.TheVariants as spec_place;
ghost use Rattle.vl_grammar.specs.Read as spec;
ghost use Rattle.vl_grammar.specs.Spells.{Whole, Ends};
ghost use Rattle.vl_grammar.specs.Longest.{Stands, IsLongest, NoneBegins};
ghost use Rattle.vl_grammar.specs.Roles as spec_roles;
ghost use Rattle.vl_expr.specs.Ends.{closes};
ghost use Rattle.vl_expr.specs.Gives.{Gives, IsGiven};
ghost use Rattle.vl_expr.specs.Parsed.{place_at as spec_place_at, Refuses};

use crate::errors::ReadError;
use crate::grammar::expr;
use crate::tokens::Read;
use std::alloc::Global;
use vl_grammar::{Role, binds, role_of};
use vl_tree::{Code, Expr, Fault, Place, Stop, Token, TokenList, Word, next_word};

/// The expression at the head of some tokens, and the tokens behind it: exactly what the reader of the grammar gives (`read`). So it spells the tokens that it takes
/// (`spelled`), and an expression behind which none goes on is the one that is given (`only`). It refuses where the reader does, which may be behind a shorter
/// expression. Linear in what is read; takes stack for each bracket, choice and unary operator that is open.
pub fn read_expr<'t, 'f>(alloc: Global, tokens: &'t [Token<'f>]) -> Read<'t, 'f, Expr<'f>>
    ensures read { Gives (λ x. (x.0, x.1.now)) result (spec.expr (suc (length tokens.now)) 0 tokens.now) }
    ensures spelled { IfOk result (λ x. Whole x.0 tokens.now x.1.now) }
    ensures only { (t : tree.Expr) (rest : spec.Tokens) → Whole t tokens.now rest → Ends (next rest) → IsGiven (λ x. (x.0, x.1.now)) t rest result }
{
    expr(alloc, tokens, tokens.len() + 1, 0)
}

/// Whether no expression goes on with this word.
fn ends(word: Word) -> bool
    ensures { result ≡ closes (spec_roles.role_of word) (spec_roles.binds word) }
{
    match role_of(word) {
        Role::Question | Role::LeftBracket | Role::LeftParen => false,
        _ => binds(word) == 0,
    }
}

fn rest_at<'t, 'f>(tokens: &'t [Token<'f>], at: usize) -> &'t [Token<'f>]
    requires { at ≤ length tokens.now }
    ensures { result.now ≡ drop at tokens.now }
{
    &tokens[at..]
}

fn cut_at<'t, 'f>(tokens: &'t [Token<'f>], at: usize, end: usize) -> &'t [Token<'f>]
    requires order { at ≤ end }
    requires within { end ≤ length tokens.now }
    ensures { result.now ≡ take (end - at) (drop at tokens.now) }
{
    &rest_at(tokens, at)[..end - at]
}

fn read_cut<'t, 'f>(
    alloc: Global,
    tokens: &'t [Token<'f>],
    at: usize,
    end: usize,
) -> Read<'t, 'f, Expr<'f>>
    requires order { at ≤ end }
    requires within { end ≤ length tokens.now }
    ensures { Gives (λ x. (x.0, x.1.now)) result (spec.expr (suc (length (take (end - at) (drop at tokens.now)))) 0 (take (end - at) (drop at tokens.now))) }
{
    read_expr(alloc, cut_at(tokens, at, end))
}

/// The expression that the tokens between two places are.
fn read_between<'f>(
    alloc: Global,
    tokens: &[Token<'f>],
    at: usize,
    end: usize,
) -> Result<Expr<'f>, ReadError>
    requires order { at ≤ end }
    requires within { end ≤ length tokens.now }
    ensures found { IfOk result (λ t. Stands t tokens.now at end) }
    ensures none { result ≡ Err ReadError.Refused → (t : tree.Expr) → Stands t tokens.now at end → ⊥ }
{
    match read_cut(alloc, tokens, at, end) {
        Ok((found, rest)) => {
            if rest.len() == 0 {
                Ok(found)
            } else {
                Err(ReadError::Refused)
            }
        }
        Err(error) => Err(error),
    }
}

/// The longest expression at a place, sought from the last end down. Quadratic in the tokens behind the place.
fn seek<'f>(alloc: Global, tokens: &[Token<'f>], at: usize) -> Result<(Expr<'f>, usize), ReadError>
    ensures found { IfOk result (λ x. IsLongest x.0 tokens.now at x.1) }
    ensures none { result ≡ Err ReadError.Refused → NoneBegins tokens.now at }
{
    let mut end = tokens.len();
    while end > at {
        match read_between(alloc, tokens, at, end) {
            Ok(found) => return Ok((found, end)),
            Err(ReadError::NoMemory) => return Err(ReadError::NoMemory),
            Err(ReadError::Refused) => end -= 1,
        }
    }
    Err(ReadError::Refused)
}

fn read_at<'t, 'f>(alloc: Global, tokens: &'t [Token<'f>], at: usize) -> Read<'t, 'f, Expr<'f>>
    requires { at ≤ length tokens.now }
    ensures { Gives (λ x. (x.0, x.1.now)) result (spec.expr (suc (length (drop at tokens.now))) 0 (drop at tokens.now)) }
{
    read_expr(alloc, rest_at(tokens, at))
}

/// The longest expression at a place: in one pass where no expression goes on with what stands behind the one that is read.
fn longest<'f>(
    alloc: Global,
    tokens: &[Token<'f>],
    at: usize,
) -> Result<(Expr<'f>, usize), ReadError>
    ensures found { IfOk result (λ x. IsLongest x.0 tokens.now at x.1) }
    ensures none { result ≡ Err ReadError.Refused → NoneBegins tokens.now at }
{
    if at >= tokens.len() {
        return Err(ReadError::Refused);
    }
    match read_at(alloc, tokens, at) {
        Ok((found, behind)) => {
            if ends(next_word(behind)) {
                return Ok((found, tokens.len() - behind.len()));
            }
        }
        Err(ReadError::NoMemory) => return Err(ReadError::NoMemory),
        Err(ReadError::Refused) => {}
    }
    seek(alloc, tokens, at)
}

/// Where a token stands.
fn place_of(token: &Token<'_>) -> Place
    ensures { result ≡ spec_place.Line token.now.span.file token.now.span.line }
{
    Place::Line {
        file: token.span.file,
        line: token.span.line,
    }
}

/// The place of the token at a place of the list, or of the last one where the list ends before it, or the first line of the first file.
fn place_at(tokens: &[Token<'_>], at: usize) -> Place
    ensures { result ≡ spec_place_at tokens.now at }
{
    match tokens {
        [] => Place::Line { file: 0, line: 1 },
        [.., last] => {
            if at < tokens.len() {
                place_of(&tokens[at])
            } else {
                place_of(last)
            }
        }
    }
}

/// The longest expression that the tokens from a place on begin with, and the place behind it. It is the only one of that length.
///
/// Refuses with the fault of syntax exactly where no expression begins there, at the token at that place, else at the last token, else at line 1 of the
/// first file; and with want of memory. The place may be any. One pass over the expression, where no expression goes on with the token behind the one that
/// is read as far as it goes, as in every right source; else ends are tried from the last token down, which may be quadratic in the tokens. Takes stack for each
/// bracket, choice and unary operator that is open.
pub fn parse_expr<'f>(
    alloc: Global,
    tokens: &TokenList<'f>,
    at: usize,
) -> Result<(Expr<'f>, usize), Stop>
    ensures longest { IfOk result (λ x. IsLongest x.0 tokens.now at x.1) }
    ensures refused { IfErr result (λ stop. Refuses tokens.now at stop) }
{
    let all = tokens.as_slice();
    match longest(alloc, all, at) {
        Ok(found) => Ok(found),
        Err(ReadError::NoMemory) => Err(Stop::NoMemory),
        Err(ReadError::Refused) => Err(Stop::Fault(Fault {
            code: Code::Syntax,
            place: place_at(all, at),
        })),
    }
}
