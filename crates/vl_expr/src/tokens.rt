ghost use Rattle.std.specs.Prelude.{◌≡◌, ◌∷◌, IfOk, [], ◌↔◌, IsTrue};
ghost use Rattle.vl_grammar.specs.Read as spec;
ghost use Rattle.vl_grammar.specs.Roles.{role_of};
ghost use Rattle.vl_tree.specs.Words.{next};
ghost use Rattle.vl_expr.specs.Gives.{Gives};

use crate::errors::ReadError;
use bits_core::{Items, NoMemory};
use sqlite_items::Boxed;
use std::alloc::{AllocError, Global};
use vl_grammar::{Role, role_of as role_of_word};
use vl_tree::{Expr, Token, Word, next_word, same_word, word_of};

/// What was read, and the tokens behind it.
pub type Read<'t, 'f, T> = Result<(T, &'t [Token<'f>]), ReadError>;

/// The first token, whatever it is. Takes no memory.
pub fn token<'t, 'f>(tokens: &'t [Token<'f>]) -> Read<'t, 'f, Token<'f>>
    ensures { Gives (λ x. (x.0, x.1.now)) result (spec.token tokens.now) }
{
    match tokens {
        [first, rest @ ..] => Ok((*first, rest)),
        [] => Err(ReadError::Refused),
    }
}

/// The first token, which has to be of this word. Takes no memory.
pub fn expect<'t, 'f>(tokens: &'t [Token<'f>], word: Word) -> Read<'t, 'f, Token<'f>>
    ensures { Gives (λ x. (x.0, x.1.now)) result (spec.expect word tokens.now) }
{
    match tokens {
        [first, rest @ ..] => {
            if same_word(word_of(first), word) {
                Ok((*first, rest))
            } else {
                Err(ReadError::Refused)
            }
        }
        [] => Err(ReadError::Refused),
    }
}

/// The word of the next token, which stays. Takes no memory.
pub fn peek<'t, 'f>(tokens: &'t [Token<'f>]) -> Read<'t, 'f, Word>
    ensures { Gives (λ x. (x.0, x.1.now)) result (spec.peek tokens.now) }
{
    Ok((next_word(tokens), tokens))
}

/// The role of the next token, which stays. Takes no memory.
pub fn next_role(tokens: &[Token<'_>]) -> Role
    ensures { result ≡ role_of (next tokens.now) }
{
    role_of_word(next_word(tokens))
}

/// A list of one thing. Refused for want of memory alone.
pub fn only<T: Drop>(alloc: Global, item: T) -> Result<Items<T>, NoMemory>
    ensures { IfOk result (λ all. all ≡ item ∷ []) }
{
    let mut all = Items::new(alloc);
    all.push(item)?;
    Ok(all)
}

/// An operator before its operand. Refused for want of memory alone.
pub fn unary<'f>(alloc: Global, op: Token<'f>, operand: Expr<'f>) -> Result<Expr<'f>, AllocError>
    ensures { IfOk result (λ e. e ≡ Expr.Unary op.entry operand.entry) }
{
    Ok(Expr::Unary {
        op,
        operand: Boxed::new(alloc, operand)?,
    })
}

/// An operator between its operands. Refused for want of memory alone.
pub fn binary<'f>(
    alloc: Global,
    op: Token<'f>,
    left: Expr<'f>,
    right: Expr<'f>,
) -> Result<Expr<'f>, AllocError>
    ensures { IfOk result (λ e. e ≡ Expr.Binary op.entry left.entry right.entry) }
{
    Ok(Expr::Binary {
        op,
        left: Boxed::new(alloc, left)?,
        right: Boxed::new(alloc, right)?,
    })
}
