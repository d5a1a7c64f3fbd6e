ghost use Rattle.std.specs.Prelude.{◌≡◌};
ghost use Rattle.vl_rules.specs.Form.{reads};
ghost use Rattle.vl_rules.specs.Form as spec;
ghost use Rattle.vl_rules.specs.Shapes as shape;
ghost use Rattle.vl_rules.specs.Events as events;
ghost use Rattle.vl_rules.specs.Modules.{read_to};
ghost use Rattle.vl_expr.specs.Gives.{Gives};
ghost use Rattle.vl_parse_parts.specs.Nests.{Nests};

use crate::reader::{Reader, is_next, no_free};
use crate::rows::{Part, list, only};
use bits_core::Items;
use std::alloc::Global;
use vl_expr::{Read, ReadError, expect, read_select};
use vl_tree::{Lval, Select, Token, Word};

/// Left sides inside another.
#[derive(Clone, Copy)]
pub struct Lefts<F> {
    pub reader: Reader,
    pub left: F,
}

impl<'f, F> Part<'f> for Lefts<F>
where
    F: for<'s> Fn(Global, &'s [Token<'f>], usize) -> Result<(Lval<'f>, &'s [Token<'f>]), ReadError>,
{
    ghost use Rattle.std.specs.Prelude.{◌≡◌};
    ghost use Rattle.vl_rules.specs.Form.{lval, rule_begins};
    ghost use Rattle.vl_rules.specs.Modules.{read_to};
    ghost use Rattle.vl_expr.specs.Gives.{Gives};
    ghost use Rattle.vl_parse_parts.specs.Nests.{Nests};

    type Tree = Lval<'f>;

    ghost ready = { λ s. Nests (read_to s.reader.depth lval) s.reader.depth (F.pre s.left) (F.post s.left) };

    ghost begin = { λ s. rule_begins lval };

    ghost parser = { λ s. read_to s.reader.depth lval };

    #[tactic(auto, unfolding(vl_rules::specs::Form::rule_begins))]
    fn starts_with(&self, word: Word) -> bool
        ensures { result ≡ rule_begins lval word }
    {
        match word {
            Word::Name | Word::LeftBrace => true,
            _ => false,
        }
    }

    fn read<'t>(&self, tokens: &'t [Token<'f>]) -> Read<'t, 'f, Lval<'f>>
        requires { Nests (read_to self.now.reader.depth lval) self.now.reader.depth (F.pre self.now.left) (F.post self.now.left) }
        ensures { Gives (λ x. (x.0, x.1.now)) result (read_to self.now.reader.depth lval tokens.now) }
    {
        (self.left)(self.reader.alloc, tokens, self.reader.depth)
    }
}

impl<F> Lefts<F> {
    /// What is written: a name with its selects, or a concatenation of such (A.8.5).
    #[tactic(auto, unfolding(vl_rules::specs::Events::left_side))]
    pub fn left_side<'t, 'f>(&self, tokens: &'t [Token<'f>]) -> Read<'t, 'f, Lval<'f>>
    where
        F: for<'s> Fn(
            Global,
            &'s [Token<'f>],
            usize,
        ) -> Result<(Lval<'f>, &'s [Token<'f>]), ReadError>
            + Copy,
        requires { Nests (read_to self.now.reader.depth spec.lval) self.now.reader.depth (F.pre self.now.left) (F.post self.now.left) }
        ensures { Gives (λ x. (x.0, x.1.now)) result (reads (read_to self.now.reader.depth) events.left_side tokens.now) }
    {
        if is_next(tokens, Word::Name) {
            let (name, rest) = expect(tokens, Word::Name)?;
            let (selects, rest) = self.reader.selects(rest)?;
            Ok((Lval::Name { name, selects }, rest))
        } else {
            let (_, rest) = expect(tokens, Word::LeftBrace)?;
            let (parts, rest) = self.parts(rest)?;
            let (_, rest) = expect(rest, Word::RightBrace)?;
            Ok((Lval::Concat(parts), rest))
        }
    }

    fn parts<'t, 'f>(&self, tokens: &'t [Token<'f>]) -> Read<'t, 'f, Items<Lval<'f>>>
    where
        F: for<'s> Fn(
            Global,
            &'s [Token<'f>],
            usize,
        ) -> Result<(Lval<'f>, &'s [Token<'f>]), ReadError>
            + Copy,
        requires { Nests (read_to self.now.reader.depth spec.lval) self.now.reader.depth (F.pre self.now.left) (F.post self.now.left) }
        ensures { Gives (λ x. (x.0, x.1.now)) result (reads (read_to self.now.reader.depth) (shape.list (spec.rule spec.lval)) tokens.now) }
    {
        list(self.reader.alloc, self, tokens)
    }
}

/// The left side of a write, with rules nested to a depth.
#[tactic(auto, unfolding(vl_rules::specs::Modules::read_to, vl_rules::specs::Modules::body))]
fn nested_left<'t, 'f>(
    alloc: Global,
    tokens: &'t [Token<'f>],
    depth: usize,
) -> Result<(Lval<'f>, &'t [Token<'f>]), ReadError>
    ensures { Gives (λ x. (x.0, x.1.now)) result (read_to depth spec.lval tokens.now) }
{
    if depth == 0 {
        return Err(ReadError::Refused);
    }
    let lefts = Lefts {
        reader: Reader {
            alloc,
            depth: depth - 1,
        },
        left: nested_left,
    };
    lefts.left_side(tokens)
}

impl Reader {
    /// At most one select, in brackets behind a name (A.8.3).
    #[tactic(auto, unfolding(vl_rules::specs::Events::selects, vl_rules::specs::Form::read_select))]
    pub fn selects<'t, 'f>(&self, tokens: &'t [Token<'f>]) -> Read<'t, 'f, Items<Select<'f>>>
        ensures { Gives (λ x. (x.0, x.1.now)) result (reads (read_to self.now.depth) events.selects tokens.now) }
    {
        if is_next(tokens, Word::LeftBracket) {
            let (_, rest) = expect(tokens, Word::LeftBracket)?;
            let (found, rest) = self.select(rest)?;
            let all = only(self.alloc, found)?;
            Ok((all, rest))
        } else {
            Ok((Items::new(self.alloc), tokens))
        }
    }

    #[tactic(auto, unfolding(vl_rules::specs::Form::read_select))]
    fn select<'t, 'f>(&self, tokens: &'t [Token<'f>]) -> Read<'t, 'f, Select<'f>>
        ensures { Gives (λ x. (x.0, x.1.now)) result (reads (read_to self.now.depth) spec.select_rest tokens.now) }
    {
        let (found, rest) = read_select(self.alloc, tokens)?;
        if no_free(tokens, rest) {
            Ok((found, rest))
        } else {
            Err(ReadError::Refused)
        }
    }

    /// The left side of a write.
    pub fn left_side<'t, 'f>(&self, tokens: &'t [Token<'f>]) -> Read<'t, 'f, Lval<'f>>
        ensures { Gives (λ x. (x.0, x.1.now)) result (reads (read_to self.now.depth) events.left_side tokens.now) }
    {
        let lefts = Lefts {
            reader: *self,
            left: nested_left,
        };
        lefts.left_side(tokens)
    }
}
