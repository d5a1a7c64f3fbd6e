ghost use Rattle.std.specs.Prelude.{◌≡◌};
ghost use Rattle.vl_rules.specs.Form as spec;
ghost use Rattle.vl_rules.specs.Shapes as shape;
ghost use Rattle.vl_tree.specs.Words.{next, same_word};
ghost use Rattle.vl_rules.specs.Form.{reads};
ghost use Rattle.vl_rules.specs.Modules.{read_to};
ghost use Rattle.vl_expr.specs.Gives.{Gives};

use crate::rows::Part;
use std::alloc::Global;
use vl_expr::{Read, ReadError, expect, read_expr};
use vl_grammar::is_unary;
use vl_tree::{Expr, Token, Word, next_word, same_word, word_of};

/// What reads parts of the grammar, with rules nested to a depth.
#[derive(Clone, Copy)]
pub struct Reader {
    pub alloc: Global,
    /// How deep rules may still nest.
    pub depth: usize,
}

/// Whether the next token is of this word.
pub fn is_next(tokens: &[Token<'_>], word: Word) -> bool
    ensures { result ≡ same_word (next tokens.now) word }
{
    same_word(next_word(tokens), word)
}

/// Whether no number with free bits is among the first tokens.
fn none_free(tokens: &[Token<'_>], count: usize) -> bool
    ensures { result ≡ spec.none_free count tokens.now }
{
    let mut left = tokens;
    for _turn in 0..count {
        match left {
            [] => return true,
            [first, rest @ ..] => {
                if same_word(word_of(first), Word::FreeNumber) {
                    return false;
                }
                left = rest;
            }
        }
    }
    true
}

/// Whether no number with free bits is among the tokens before the rest.
pub fn no_free(tokens: &[Token<'_>], rest: &[Token<'_>]) -> bool
    ensures { result ≡ spec.no_free tokens.now rest.now }
{
    none_free(tokens, tokens.len().saturating_sub(rest.len()))
}

/// Whether an expression begins with this word.
#[tactic(auto, unfolding(vl_rules::specs::Form::begins))]
pub fn begins_value(word: Word) -> bool
    ensures { result ≡ spec.begins word }
{
    match word {
        Word::Number | Word::Name | Word::System | Word::LeftParen | Word::LeftBrace => true,
        _ => is_unary(word),
    }
}

impl Reader {
    /// An expression without numbers with free bits.
    #[tactic(auto, unfolding(vl_rules::specs::Form::read_value))]
    pub fn value<'t, 'f>(&self, tokens: &'t [Token<'f>]) -> Read<'t, 'f, Expr<'f>>
        ensures { Gives (λ x. (x.0, x.1.now)) result (reads (read_to self.now.depth) spec.value tokens.now) }
    {
        let (found, rest) = read_expr(self.alloc, tokens)?;
        if no_free(tokens, rest) {
            Ok((found, rest))
        } else {
            Err(ReadError::Refused)
        }
    }

    /// Whether a word stands there, which is then passed.
    pub fn flag<'t, 'f>(&self, tokens: &'t [Token<'f>], word: Word) -> Read<'t, 'f, bool>
        ensures { Gives (λ x. (x.0, x.1.now)) result (reads (read_to self.now.depth) (shape.flag word) tokens.now) }
    {
        if is_next(tokens, word) {
            let (_, rest) = expect(tokens, word)?;
            Ok((true, rest))
        } else {
            Ok((false, tokens))
        }
    }
}

/// Expressions without numbers with free bits.
#[derive(Clone, Copy)]
pub struct Values {
    pub reader: Reader,
}

impl<'f> Part<'f> for Values {
    ghost use Rattle.std.specs.Prelude.{◌≡◌};
    ghost use Rattle.vl_rules.specs.Form as spec;
    ghost use Rattle.vl_rules.specs.Form.{reads, starts};
    ghost use Rattle.vl_rules.specs.Modules.{read_to};
    ghost use Rattle.vl_expr.specs.Gives.{Gives};

    type Tree = Expr<'f>;

    ghost ready = { λ s. Unit {0} };

    ghost begin = { λ s. starts spec.value };

    ghost parser = { λ s. reads (read_to s.reader.depth) spec.value };

    fn starts_with(&self, word: Word) -> bool
        ensures { result ≡ starts spec.value word }
    {
        begins_value(word)
    }

    fn read<'t>(&self, tokens: &'t [Token<'f>]) -> Read<'t, 'f, Self::Tree>
        ensures { Gives (λ x. (x.0, x.1.now)) result (reads (read_to self.now.reader.depth) spec.value tokens.now) }
    {
        self.reader.value(tokens)
    }
}

/// Expressions behind `=`.
#[derive(Clone, Copy)]
pub struct AfterEquals {
    pub reader: Reader,
}

impl<'f> Part<'f> for AfterEquals {
    ghost use Rattle.std.specs.Prelude.{◌≡◌};
    ghost use Rattle.vl_rules.specs.Shapes as shape;
    ghost use Rattle.vl_rules.specs.Form.{reads, starts};
    ghost use Rattle.vl_rules.specs.Modules.{read_to};
    ghost use Rattle.vl_expr.specs.Gives.{Gives};

    type Tree = Expr<'f>;

    ghost ready = { λ s. Unit {0} };

    ghost begin = { λ s. starts shape.after_equals };

    ghost parser = { λ s. reads (read_to s.reader.depth) shape.after_equals };

    fn starts_with(&self, word: Word) -> bool
        ensures { result ≡ starts shape.after_equals word }
    {
        same_word(word, Word::EqualSign)
    }

    fn read<'t>(&self, tokens: &'t [Token<'f>]) -> Read<'t, 'f, Self::Tree>
        ensures { Gives (λ x. (x.0, x.1.now)) result (reads (read_to self.now.reader.depth) shape.after_equals tokens.now) }
    {
        let (_, rest) = expect(tokens, Word::EqualSign)?;
        let (value, rest) = self.reader.value(rest)?;
        Ok((value, rest))
    }
}

/// Names.
#[derive(Clone, Copy)]
pub struct Names {
    pub reader: Reader,
}

impl<'f> Part<'f> for Names {
    ghost use Rattle.std.specs.Prelude.{◌≡◌};
    ghost use Rattle.vl_rules.specs.Shapes as shape;
    ghost use Rattle.vl_rules.specs.Form.{reads, starts};
    ghost use Rattle.vl_rules.specs.Modules.{read_to};
    ghost use Rattle.vl_expr.specs.Gives.{Gives};

    type Tree = Token<'f>;

    ghost ready = { λ s. Unit {0} };

    ghost begin = { λ s. starts shape.name };

    ghost parser = { λ s. reads (read_to s.reader.depth) shape.name };

    fn starts_with(&self, word: Word) -> bool
        ensures { result ≡ starts shape.name word }
    {
        same_word(word, Word::Name)
    }

    fn read<'t>(&self, tokens: &'t [Token<'f>]) -> Read<'t, 'f, Self::Tree>
        ensures { Gives (λ x. (x.0, x.1.now)) result (reads (read_to self.now.reader.depth) shape.name tokens.now) }
    {
        expect(tokens, Word::Name)
    }
}
