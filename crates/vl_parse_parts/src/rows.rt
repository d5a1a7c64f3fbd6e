ghost use Rattle.std.specs.Prelude.{◌≡◌, Bool, [], ◌∷◌, length, IfOk};
ghost use Rattle.vl_tree.specs.declared.words.Word as spec_word;
ghost use Rattle.vl_grammar.specs.Read.{Parser};
ghost use Rattle.vl_rules.specs.Form.{row, begun};
ghost use Rattle.vl_expr.specs.Gives.{Gives};
ghost use Rattle.vl_parse_parts.specs.Parts.{listed, optional};

use bits_core::{Items, NoMemory};
use std::alloc::Global;
use vl_expr::{Read, expect, peek};
use vl_tree::{Token, Word, next_word, same_word};

/// A part of the grammar that is read off the front of some tokens.
pub trait Part<'f> {
    type Tree: Drop;

    ghost use Rattle.std.specs.Prelude.{◌≡◌, Bool};
    ghost use Rattle.vl_tree.specs.declared.words.Word as spec_word;
    ghost use Rattle.vl_grammar.specs.Read.{Parser};
    ghost use Rattle.vl_expr.specs.Gives.{Gives};

    ghost ready: { Self → Type 0 };

    ghost begin: { Self → spec_word.Word → Bool };

    ghost parser: { Self → Parser Self.Tree };

    /// Whether the part begins with this word.
    fn starts_with(&self, word: Word) -> bool
        ensures { result ≡ begin self.now word };

    fn read<'t>(&self, tokens: &'t [Token<'f>]) -> Read<'t, 'f, Self::Tree>
        requires { ready self.now }
        ensures { Gives (λ x. (x.0, x.1.now)) result (parser self.now tokens.now) };
}

/// A list of one thing. Refused for want of memory alone.
pub fn only<T: Drop>(alloc: Global, item: T) -> Result<Items<T>, NoMemory>
    ensures { IfOk result (λ all. all ≡ item ∷ []) }
{
    let mut all = Items::new(alloc);
    all.push(item)?;
    Ok(all)
}

/// More parts while the next word begins one.
pub fn row_after<'t, 'f, P: Part<'f>>(
    part: &P,
    first: Items<P::Tree>,
    tokens: &'t [Token<'f>],
) -> Read<'t, 'f, Items<P::Tree>>
    requires { P.ready part.now }
    ensures { Gives (λ x. (x.0, x.1.now)) result (row (P.begin part.now) (P.parser part.now) (length tokens.now) first tokens.now) }
{
    let mut found = first;
    let (_, mut rest) = peek(tokens)?;
    for _turn in 0..tokens.len() {
        if !part.starts_with(next_word(rest)) {
            return Ok((found, rest));
        }
        let (item, behind) = part.read(rest)?;
        found.push(item)?;
        rest = behind;
    }
    Ok((found, rest))
}

/// Any number of parts, while the next word begins one.
pub fn many<'t, 'f, P: Part<'f>>(
    alloc: Global,
    part: &P,
    tokens: &'t [Token<'f>],
) -> Read<'t, 'f, Items<P::Tree>>
    requires { P.ready part.now }
    ensures { Gives (λ x. (x.0, x.1.now)) result (row (P.begin part.now) (P.parser part.now) (length tokens.now) [] tokens.now) }
{
    row_after(part, Items::new(alloc), tokens)
}

/// One part, and more while the next word begins one of the others.
pub fn one_and_more<'t, 'f, T: Drop, P: Part<'f, Tree = T>, Q: Part<'f, Tree = T>>(
    alloc: Global,
    first: &P,
    others: &Q,
    tokens: &'t [Token<'f>],
) -> Read<'t, 'f, Items<T>>
    requires first { P.ready first.now }
    requires others { Q.ready others.now }
    ensures { Gives (λ x. (x.0, x.1.now)) result (begun (P.parser first.now) (Q.begin others.now) (Q.parser others.now) tokens.now) }
{
    let (item, rest) = first.read(tokens)?;
    let found = only(alloc, item)?;
    row_after(others, found, rest)
}

/// A part behind a comma.
#[derive(Clone, Copy)]
pub struct AfterComma<P> {
    pub part: P,
}

impl<'f, P: Part<'f>> Part<'f> for AfterComma<P> {
    ghost use Rattle.std.specs.Prelude.{◌≡◌};
    ghost use Rattle.vl_parse_parts.specs.Parts.{is_comma, after_comma};

    type Tree = P::Tree;

    ghost ready = { λ s. P.ready s.part };

    ghost begin = { λ s. is_comma };

    ghost parser = { λ s. after_comma (P.parser s.part) };

    fn starts_with(&self, word: Word) -> bool {
        same_word(word, Word::Comma)
    }

    fn read<'t>(&self, tokens: &'t [Token<'f>]) -> Read<'t, 'f, Self::Tree> {
        let (_, rest) = expect(tokens, Word::Comma)?;
        let (found, rest) = self.part.read(rest)?;
        Ok((found, rest))
    }
}

/// One part or more, with commas between.
pub fn list<'t, 'f, P: Part<'f> + Copy>(
    alloc: Global,
    part: &P,
    tokens: &'t [Token<'f>],
) -> Read<'t, 'f, Items<P::Tree>>
    requires { P.ready part.now }
    ensures { Gives (λ x. (x.0, x.1.now)) result (listed (P.parser part.now) tokens.now) }
{
    one_and_more(alloc, part, &AfterComma { part: *part }, tokens)
}

/// A part, or none where the next word begins none.
pub fn maybe<'t, 'f, P: Part<'f>>(
    part: &P,
    tokens: &'t [Token<'f>],
) -> Read<'t, 'f, Option<P::Tree>>
    requires { P.ready part.now }
    ensures { Gives (λ x. (x.0, x.1.now)) result (optional (P.begin part.now) (P.parser part.now) tokens.now) }
{
    if part.starts_with(next_word(tokens)) {
        let (found, rest) = part.read(tokens)?;
        Ok((Some(found), rest))
    } else {
        Ok((None, tokens))
    }
}
