ghost use Rattle.std.specs.Prelude.{◌≡◌};
ghost use Rattle.vl_rules.specs.Form as spec;
ghost use Rattle.vl_rules.specs.Shapes as shape;
ghost use Rattle.vl_rules.specs.Statements as statements;
ghost use Rattle.vl_tree.specs.declared.words.Word.TheVariants as spec_word;
ghost use Rattle.vl_rules.specs.Form.{reads};
ghost use Rattle.vl_rules.specs.Modules.{read_to};
ghost use Rattle.vl_expr.specs.Gives.{Gives};

use crate::reader::{AfterEquals, Reader, is_next};
use crate::rows::Part;
use sqlite_items::Boxed;
use std::alloc::Global;
use vl_expr::{Read, ReadError, expect};
use vl_tree::{Expr, LoopHead, Token, Word};

impl Reader {
    /// An expression in brackets.
    pub fn value_in_parens<'t, 'f>(&self, tokens: &'t [Token<'f>]) -> Read<'t, 'f, Expr<'f>>
        ensures { Gives (λ x. (x.0, x.1.now)) result (reads (read_to self.now.depth) (shape.in_parens spec.value) tokens.now) }
    {
        let (_, rest) = expect(tokens, Word::LeftParen)?;
        let (value, rest) = self.value(rest)?;
        let (_, rest) = expect(rest, Word::RightParen)?;
        Ok((value, rest))
    }

    /// The name behind `begin`, where one stands.
    #[tactic(auto, unfolding(vl_rules::specs::Statements::block_name))]
    pub fn block_name<'t, 'f>(&self, tokens: &'t [Token<'f>]) -> Read<'t, 'f, Option<Token<'f>>>
        ensures { Gives (λ x. (x.0, x.1.now)) result (reads (read_to self.now.depth) statements.block_name tokens.now) }
    {
        if is_next(tokens, Word::Colon) {
            let (_, rest) = expect(tokens, Word::Colon)?;
            let (name, rest) = expect(rest, Word::Name)?;
            Ok((Some(name), rest))
        } else {
            Ok((None, tokens))
        }
    }

    /// The word `default`, and the colon behind it, where one stands.
    #[tactic(auto, unfolding(vl_rules::specs::Statements::default_word))]
    pub fn default_word<'t, 'f>(&self, tokens: &'t [Token<'f>]) -> Read<'t, 'f, Option<Token<'f>>>
        ensures { Gives (λ x. (x.0, x.1.now)) result (reads (read_to self.now.depth) statements.default_word tokens.now) }
    {
        let (_, rest) = expect(tokens, Word::Default)?;
        let (colon, rest) = self.maybe_colon(rest)?;
        Ok((colon, rest))
    }

    fn maybe_colon<'t, 'f>(&self, tokens: &'t [Token<'f>]) -> Read<'t, 'f, Option<Token<'f>>>
        ensures { Gives (λ x. (x.0, x.1.now)) result (reads (read_to self.now.depth) (shape.maybe (spec.fixed spec_word.Colon)) tokens.now) }
    {
        if is_next(tokens, Word::Colon) {
            let (colon, rest) = expect(tokens, Word::Colon)?;
            Ok((Some(colon), rest))
        } else {
            Ok((None, tokens))
        }
    }

    /// The head of a loop behind `for` (A.4.2, A.6.8).
    #[tactic(auto, unfolding(vl_rules::specs::Statements::loop_head))]
    pub fn loop_head<'t, 'f>(&self, tokens: &'t [Token<'f>]) -> Read<'t, 'f, LoopHead<'f>>
        ensures { Gives (λ x. (x.0, x.1.now)) result (reads (read_to self.now.depth) statements.loop_head tokens.now) }
    {
        let after = AfterEquals { reader: *self };
        let (_, rest) = expect(tokens, Word::LeftParen)?;
        let (start_name, rest) = expect(rest, Word::Name)?;
        let (start, rest) = after.read(rest)?;
        let start = Boxed::new(self.alloc, start)?;
        let (_, rest) = expect(rest, Word::Semicolon)?;
        let (test, rest) = self.value(rest)?;
        let test = Boxed::new(self.alloc, test)?;
        let (_, rest) = expect(rest, Word::Semicolon)?;
        let (step_name, rest) = expect(rest, Word::Name)?;
        let (step, rest) = after.read(rest)?;
        let step = Boxed::new(self.alloc, step)?;
        let (_, rest) = expect(rest, Word::RightParen)?;
        let head = LoopHead {
            start_name,
            start,
            test,
            step_name,
            step,
        };
        Ok((head, rest))
    }
}
