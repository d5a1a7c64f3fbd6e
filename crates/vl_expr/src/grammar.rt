ghost use Rattle.std.specs.Prelude.{◌≡◌, suc, length, List, IfOk};
ghost use Rattle.vl_tree.specs.declared.expressions.Expr as tree;
ghost use Rattle.vl_tree.specs.declared.expressions.Select as selects;
ghost use Rattle.vl_tree.specs.Words.{next};
ghost use Rattle.vl_grammar.specs.Spells.{Listed, Selected};
ghost use Rattle.vl_expr.specs.Ends.{EndsList};
ghost use Rattle.vl_grammar.specs.Read as spec;
ghost use Rattle.vl_expr.specs.Gives.{Gives, IsGiven};
ghost use Rattle.vl_expr.specs.Nests.{Nests};

use crate::errors::ReadError;
use crate::tokens::{Read, binary, expect, next_role, only, peek, token, unary};
use bits_core::Items;
use sqlite_items::Boxed;
use std::alloc::Global;
use vl_grammar::{Role, binds, is_unary, role_of};
use vl_tree::{Expr, ExprList, Select, Token, Word, next_word, same_word, word_of};

/// What reads expressions, with `expr` for those that nest (A.8.3).
#[derive(Clone, Copy)]
pub struct Grammar<F> {
    pub alloc: Global,
    /// How deep expressions may still nest.
    pub depth: usize,
    pub expr: F,
}

impl<F> Grammar<F> {
    fn level<'t, 'f>(&self, tokens: &'t [Token<'f>], least: u8) -> Read<'t, 'f, Expr<'f>>
    where
        F: for<'s> Fn(
            Global,
            &'s [Token<'f>],
            usize,
            u8,
        ) -> Result<(Expr<'f>, &'s [Token<'f>]), ReadError>,
        requires { Nests self.now.depth (F.pre self.now.expr) (F.post self.now.expr) }
        ensures { Gives (λ x. (x.0, x.1.now)) result (spec.expr self.now.depth least tokens.now) }
    {
        (self.expr)(self.alloc, tokens, self.depth, least)
    }

    #[tactic(auto, unfolding(vl_grammar::specs::Read::grouped))]
    fn grouped<'t, 'f>(&self, tokens: &'t [Token<'f>]) -> Read<'t, 'f, Expr<'f>>
    where
        F: for<'s> Fn(
            Global,
            &'s [Token<'f>],
            usize,
            u8,
        ) -> Result<(Expr<'f>, &'s [Token<'f>]), ReadError>,
        requires { Nests self.now.depth (F.pre self.now.expr) (F.post self.now.expr) }
        ensures { Gives (λ x. (x.0, x.1.now)) result (spec.grouped (spec.expr self.now.depth) tokens.now) }
    {
        let (inner, rest) = self.level(tokens, 0)?;
        let (_, rest) = expect(rest, Word::RightParen)?;
        Ok((Expr::Group(Boxed::new(self.alloc, inner)?), rest))
    }

    #[tactic(auto, unfolding(vl_grammar::specs::Read::list_after, vl_grammar::specs::Read::list_from))]
    fn list_after<'t, 'f>(
        &self,
        tokens: &'t [Token<'f>],
        first: Expr<'f>,
    ) -> Read<'t, 'f, Items<Expr<'f>>>
    where
        F: for<'s> Fn(
            Global,
            &'s [Token<'f>],
            usize,
            u8,
        ) -> Result<(Expr<'f>, &'s [Token<'f>]), ReadError>,
        requires { Nests self.now.depth (F.pre self.now.expr) (F.post self.now.expr) }
        ensures { Gives (λ x. (x.0, x.1.now)) result (spec.list_after (spec.expr self.now.depth) first.entry tokens.now) }
    {
        let mut found = only(self.alloc, first)?;
        let (_, mut rest) = peek(tokens)?;
        for _turn in 0..tokens.len() {
            if !same_word(next_word(rest), Word::Comma) {
                return Ok((found, rest));
            }
            let (_, more) = token(rest)?;
            let (item, behind) = self.level(more, 0)?;
            found.push(item)?;
            rest = behind;
        }
        Ok((found, rest))
    }

    #[tactic(auto, unfolding(vl_grammar::specs::Read::list))]
    fn list<'t, 'f>(&self, tokens: &'t [Token<'f>]) -> Read<'t, 'f, Items<Expr<'f>>>
    where
        F: for<'s> Fn(
            Global,
            &'s [Token<'f>],
            usize,
            u8,
        ) -> Result<(Expr<'f>, &'s [Token<'f>]), ReadError>,
        requires { Nests self.now.depth (F.pre self.now.expr) (F.post self.now.expr) }
        ensures { Gives (λ x. (x.0, x.1.now)) result (spec.list (spec.expr self.now.depth) tokens.now) }
    {
        let (first, rest) = self.level(tokens, 0)?;
        self.list_after(rest, first)
    }

    #[tactic(auto, unfolding(vl_grammar::specs::Read::call))]
    fn call<'t, 'f>(&self, tokens: &'t [Token<'f>], name: Token<'f>) -> Read<'t, 'f, Expr<'f>>
    where
        F: for<'s> Fn(
            Global,
            &'s [Token<'f>],
            usize,
            u8,
        ) -> Result<(Expr<'f>, &'s [Token<'f>]), ReadError>,
        requires { Nests self.now.depth (F.pre self.now.expr) (F.post self.now.expr) }
        ensures { Gives (λ x. (x.0, x.1.now)) result (spec.call (spec.expr self.now.depth) name.entry tokens.now) }
    {
        let (arguments, rest) = self.list(tokens)?;
        let (_, rest) = expect(rest, Word::RightParen)?;
        Ok((Expr::Call { name, arguments }, rest))
    }

    #[tactic(auto, unfolding(vl_grammar::specs::Read::system))]
    fn system<'t, 'f>(&self, tokens: &'t [Token<'f>], name: Token<'f>) -> Read<'t, 'f, Expr<'f>>
    where
        F: for<'s> Fn(
            Global,
            &'s [Token<'f>],
            usize,
            u8,
        ) -> Result<(Expr<'f>, &'s [Token<'f>]), ReadError>,
        requires { Nests self.now.depth (F.pre self.now.expr) (F.post self.now.expr) }
        ensures { Gives (λ x. (x.0, x.1.now)) result (spec.system (spec.expr self.now.depth) name.entry tokens.now) }
    {
        let (_, rest) = expect(tokens, Word::LeftParen)?;
        let (argument, rest) = self.level(rest, 0)?;
        let (_, rest) = expect(rest, Word::RightParen)?;
        let argument = Boxed::new(self.alloc, argument)?;
        Ok((Expr::System { name, argument }, rest))
    }

    #[tactic(auto, unfolding(vl_grammar::specs::Read::bound))]
    fn bound<'t, 'f>(&self, tokens: &'t [Token<'f>]) -> Read<'t, 'f, Expr<'f>>
    where
        F: for<'s> Fn(
            Global,
            &'s [Token<'f>],
            usize,
            u8,
        ) -> Result<(Expr<'f>, &'s [Token<'f>]), ReadError>,
        requires { Nests self.now.depth (F.pre self.now.expr) (F.post self.now.expr) }
        ensures { Gives (λ x. (x.0, x.1.now)) result (spec.bound (spec.expr self.now.depth) tokens.now) }
    {
        let (_, rest) = token(tokens)?;
        let (second, rest) = self.level(rest, 0)?;
        let (_, rest) = expect(rest, Word::RightBracket)?;
        Ok((second, rest))
    }

    #[tactic(auto, unfolding(vl_grammar::specs::Read::select))]
    fn select<'t, 'f>(&self, tokens: &'t [Token<'f>]) -> Read<'t, 'f, Select<'f>>
    where
        F: for<'s> Fn(
            Global,
            &'s [Token<'f>],
            usize,
            u8,
        ) -> Result<(Expr<'f>, &'s [Token<'f>]), ReadError>,
        requires { Nests self.now.depth (F.pre self.now.expr) (F.post self.now.expr) }
        ensures { Gives (λ x. (x.0, x.1.now)) result (spec.select (spec.expr self.now.depth) tokens.now) }
    {
        let (first, rest) = self.level(tokens, 0)?;
        match next_role(rest) {
            Role::RightBracket => {
                let (_, rest) = token(rest)?;
                Ok((Select::Index(first), rest))
            }
            Role::Colon => {
                let (second, rest) = self.bound(rest)?;
                Ok((Select::Range(first, second), rest))
            }
            Role::PlusColon => {
                let (second, rest) = self.bound(rest)?;
                Ok((Select::Up(first, second), rest))
            }
            Role::MinusColon => {
                let (second, rest) = self.bound(rest)?;
                Ok((Select::Down(first, second), rest))
            }
            _ => Err(ReadError::Refused),
        }
    }

    #[tactic(auto, unfolding(vl_grammar::specs::Read::named))]
    fn named<'t, 'f>(&self, tokens: &'t [Token<'f>], name: Token<'f>) -> Read<'t, 'f, Expr<'f>>
    where
        F: for<'s> Fn(
            Global,
            &'s [Token<'f>],
            usize,
            u8,
        ) -> Result<(Expr<'f>, &'s [Token<'f>]), ReadError>,
        requires { Nests self.now.depth (F.pre self.now.expr) (F.post self.now.expr) }
        ensures { Gives (λ x. (x.0, x.1.now)) result (spec.named (spec.expr self.now.depth) name.entry tokens.now) }
    {
        match next_role(tokens) {
            Role::LeftParen => {
                let (_, rest) = token(tokens)?;
                self.call(rest, name)
            }
            Role::LeftBracket => {
                let (_, rest) = token(tokens)?;
                let (found, rest) = self.select(rest)?;
                let selects = only(self.alloc, found)?;
                Ok((Expr::Name { name, selects }, rest))
            }
            _ => Ok((
                Expr::Name {
                    name,
                    selects: Items::new(self.alloc),
                },
                tokens,
            )),
        }
    }

    #[tactic(auto, unfolding(vl_grammar::specs::Read::repeated))]
    fn repeated<'t, 'f>(&self, tokens: &'t [Token<'f>], count: Expr<'f>) -> Read<'t, 'f, Expr<'f>>
    where
        F: for<'s> Fn(
            Global,
            &'s [Token<'f>],
            usize,
            u8,
        ) -> Result<(Expr<'f>, &'s [Token<'f>]), ReadError>,
        requires { Nests self.now.depth (F.pre self.now.expr) (F.post self.now.expr) }
        ensures { Gives (λ x. (x.0, x.1.now)) result (spec.repeated (spec.expr self.now.depth) count.entry tokens.now) }
    {
        let (parts, rest) = self.list(tokens)?;
        let (_, rest) = expect(rest, Word::RightBrace)?;
        let (_, rest) = expect(rest, Word::RightBrace)?;
        let count = Boxed::new(self.alloc, count)?;
        Ok((Expr::Repeat { count, parts }, rest))
    }

    #[tactic(auto, unfolding(vl_grammar::specs::Read::concat))]
    fn concat<'t, 'f>(&self, tokens: &'t [Token<'f>], first: Expr<'f>) -> Read<'t, 'f, Expr<'f>>
    where
        F: for<'s> Fn(
            Global,
            &'s [Token<'f>],
            usize,
            u8,
        ) -> Result<(Expr<'f>, &'s [Token<'f>]), ReadError>,
        requires { Nests self.now.depth (F.pre self.now.expr) (F.post self.now.expr) }
        ensures { Gives (λ x. (x.0, x.1.now)) result (spec.concat (spec.expr self.now.depth) first.entry tokens.now) }
    {
        let (parts, rest) = self.list_after(tokens, first)?;
        let (_, rest) = expect(rest, Word::RightBrace)?;
        Ok((Expr::Concat(parts), rest))
    }

    #[tactic(auto, unfolding(vl_grammar::specs::Read::braced))]
    fn braced<'t, 'f>(&self, tokens: &'t [Token<'f>]) -> Read<'t, 'f, Expr<'f>>
    where
        F: for<'s> Fn(
            Global,
            &'s [Token<'f>],
            usize,
            u8,
        ) -> Result<(Expr<'f>, &'s [Token<'f>]), ReadError>,
        requires { Nests self.now.depth (F.pre self.now.expr) (F.post self.now.expr) }
        ensures { Gives (λ x. (x.0, x.1.now)) result (spec.braced (spec.expr self.now.depth) tokens.now) }
    {
        let (first, rest) = self.level(tokens, 0)?;
        match next_role(rest) {
            Role::LeftBrace => {
                let (_, rest) = token(rest)?;
                self.repeated(rest, first)
            }
            _ => self.concat(rest, first),
        }
    }

    #[tactic(auto, unfolding(vl_grammar::specs::Read::primary))]
    fn primary<'t, 'f>(&self, tokens: &'t [Token<'f>]) -> Read<'t, 'f, Expr<'f>>
    where
        F: for<'s> Fn(
            Global,
            &'s [Token<'f>],
            usize,
            u8,
        ) -> Result<(Expr<'f>, &'s [Token<'f>]), ReadError>,
        requires { Nests self.now.depth (F.pre self.now.expr) (F.post self.now.expr) }
        ensures { Gives (λ x. (x.0, x.1.now)) result (spec.primary (spec.expr self.now.depth) tokens.now) }
    {
        let (first, rest) = token(tokens)?;
        match role_of(word_of(&first)) {
            Role::Number => Ok((Expr::Number(first), rest)),
            Role::Name => self.named(rest, first),
            Role::System => self.system(rest, first),
            Role::LeftParen => self.grouped(rest),
            Role::LeftBrace => self.braced(rest),
            _ => Err(ReadError::Refused),
        }
    }

    #[tactic(auto, unfolding(vl_grammar::specs::Read::prefix))]
    fn prefix<'t, 'f>(&self, tokens: &'t [Token<'f>]) -> Read<'t, 'f, Expr<'f>>
    where
        F: for<'s> Fn(
            Global,
            &'s [Token<'f>],
            usize,
            u8,
        ) -> Result<(Expr<'f>, &'s [Token<'f>]), ReadError>,
        requires { Nests self.now.depth (F.pre self.now.expr) (F.post self.now.expr) }
        ensures { Gives (λ x. (x.0, x.1.now)) result (spec.prefix (spec.expr self.now.depth) tokens.now) }
    {
        if is_unary(next_word(tokens)) {
            let (op, rest) = token(tokens)?;
            let (operand, rest) = self.level(rest, 12)?;
            Ok((unary(self.alloc, op, operand)?, rest))
        } else {
            self.primary(tokens)
        }
    }

    #[tactic(auto, unfolding(vl_grammar::specs::Read::joined, vl_grammar::specs::Read::climb))]
    fn joined<'t, 'f>(&self, tokens: &'t [Token<'f>], least: u8) -> Read<'t, 'f, Expr<'f>>
    where
        F: for<'s> Fn(
            Global,
            &'s [Token<'f>],
            usize,
            u8,
        ) -> Result<(Expr<'f>, &'s [Token<'f>]), ReadError>,
        requires { Nests self.now.depth (F.pre self.now.expr) (F.post self.now.expr) }
        ensures { Gives (λ x. (x.0, x.1.now)) result (spec.joined (spec.expr self.now.depth) least tokens.now) }
    {
        let (mut left, mut rest) = self.prefix(tokens)?;
        for _turn in 0..rest.len() {
            let tightness = binds(next_word(rest));
            if tightness < least {
                return Ok((left, rest));
            }
            let (op, more) = token(rest)?;
            let (right, behind) = self.level(more, tightness + 1)?;
            left = binary(self.alloc, op, left, right)?;
            rest = behind;
        }
        Ok((left, rest))
    }

    #[tactic(auto, unfolding(vl_grammar::specs::Read::choose))]
    fn choose<'t, 'f>(&self, tokens: &'t [Token<'f>], test: Expr<'f>) -> Read<'t, 'f, Expr<'f>>
    where
        F: for<'s> Fn(
            Global,
            &'s [Token<'f>],
            usize,
            u8,
        ) -> Result<(Expr<'f>, &'s [Token<'f>]), ReadError>,
        requires { Nests self.now.depth (F.pre self.now.expr) (F.post self.now.expr) }
        ensures { Gives (λ x. (x.0, x.1.now)) result (spec.choose (spec.expr self.now.depth) test.entry tokens.now) }
    {
        let (yes, rest) = self.level(tokens, 0)?;
        let (_, rest) = expect(rest, Word::Colon)?;
        let (no, rest) = self.level(rest, 0)?;
        let test = Boxed::new(self.alloc, test)?;
        let yes = Boxed::new(self.alloc, yes)?;
        let no = Boxed::new(self.alloc, no)?;
        Ok((Expr::Choice { test, yes, no }, rest))
    }

    #[tactic(auto, unfolding(vl_grammar::specs::Read::choice))]
    fn any<'t, 'f>(&self, tokens: &'t [Token<'f>]) -> Read<'t, 'f, Expr<'f>>
    where
        F: for<'s> Fn(
            Global,
            &'s [Token<'f>],
            usize,
            u8,
        ) -> Result<(Expr<'f>, &'s [Token<'f>]), ReadError>,
        requires { Nests self.now.depth (F.pre self.now.expr) (F.post self.now.expr) }
        ensures { Gives (λ x. (x.0, x.1.now)) result (spec.level (spec.expr self.now.depth) 0 tokens.now) }
    {
        let (test, rest) = self.joined(tokens, 1)?;
        match next_role(rest) {
            Role::Question => {
                let (_, rest) = token(rest)?;
                self.choose(rest, test)
            }
            _ => Ok((test, rest)),
        }
    }
}

/// An expression of this level or a tighter one.
pub fn expr<'t, 'f>(
    alloc: Global,
    tokens: &'t [Token<'f>],
    depth: usize,
    least: u8,
) -> Read<'t, 'f, Expr<'f>>
    ensures { Gives (λ x. (x.0, x.1.now)) result (spec.expr depth least tokens.now) }
{
    if depth == 0 {
        return Err(ReadError::Refused);
    }
    let grammar = Grammar {
        alloc,
        depth: depth - 1,
        expr,
    };
    if least == 0 {
        grammar.any(tokens)
    } else {
        grammar.joined(tokens, least)
    }
}

/// One or more expressions with commas between, at the head of some tokens, and the tokens behind them: exactly what the reader of the grammar gives (`read`). So
/// they spell the tokens that they take (`spelled`), and a list behind which none goes on is the one that is given (`only`). Linear in what is read.
pub fn read_list<'t, 'f>(alloc: Global, tokens: &'t [Token<'f>]) -> Read<'t, 'f, ExprList<'f>>
    ensures spelled { IfOk result (λ x. Listed x.0 tokens.now x.1.now) }
    ensures only { (xs : List tree.Expr) (rest : spec.Tokens) → Listed xs tokens.now rest → EndsList (next rest) → IsGiven (λ x. (x.0, x.1.now)) xs rest result }
    ensures read { Gives (λ x. (x.0, x.1.now)) result (spec.list (spec.expr (suc (length tokens.now))) tokens.now) }
{
    let grammar = Grammar {
        alloc,
        depth: tokens.len() + 1,
        expr,
    };
    grammar.list(tokens)
}

/// A select behind its opening bracket, at the head of some tokens, and the tokens behind its closing one: exactly what the reader of the grammar gives (`read`). So
/// it spells the tokens that it takes (`spelled`), and a select that stands there is the one that is given (`only`). Linear in what is read.
pub fn read_select<'t, 'f>(alloc: Global, tokens: &'t [Token<'f>]) -> Read<'t, 'f, Select<'f>>
    ensures spelled { IfOk result (λ x. Selected x.0 tokens.now x.1.now) }
    ensures only { (x : selects.Select) (rest : spec.Tokens) → Selected x tokens.now rest → IsGiven (λ x. (x.0, x.1.now)) x rest result }
    ensures read { Gives (λ x. (x.0, x.1.now)) result (spec.select (spec.expr (suc (length tokens.now))) tokens.now) }
{
    let grammar = Grammar {
        alloc,
        depth: tokens.len() + 1,
        expr,
    };
    grammar.select(tokens)
}
