ghost use Rattle.std.specs.Prelude.{◌≡◌};
ghost use Rattle.vl_rules.specs.Form as spec;
ghost use Rattle.vl_rules.specs.Items as items;
ghost use Rattle.vl_rules.specs.Shapes as shape;
ghost use Rattle.vl_rules.specs.Form.{reads};
ghost use Rattle.vl_rules.specs.Modules.{read_to};
ghost use Rattle.vl_expr.specs.Gives.{Gives};

use bits_core::Items;
use std::alloc::Global;
use vl_expr::{Read, ReadError, expect};
use vl_parse_declarations::Vars;
use vl_parse_parts::{AfterEquals, Names, Part, Reader, Values, is_next, list};
use vl_tree::{Assignment, Expr, Token, Var, Word, same_word};

/// The assignments of an `assign`.
#[derive(Clone, Copy)]
struct Assignments {
    pub reader: Reader,
}

impl<'f> Part<'f> for Assignments {
    ghost use Rattle.std.specs.Prelude.{◌≡◌};
    ghost use Rattle.vl_rules.specs.Items as items;
    ghost use Rattle.vl_rules.specs.Form.{reads, starts};
    ghost use Rattle.vl_rules.specs.Modules.{read_to};
    ghost use Rattle.vl_expr.specs.Gives.{Gives};

    type Tree = Assignment<'f>;

    ghost ready = { λ s. Unit {0} };

    ghost begin = { λ s. starts items.assignment };

    ghost parser = { λ s. reads (read_to s.reader.depth) items.assignment };

    #[tactic(auto, unfolding(vl_rules::specs::Items::assignment, vl_rules::specs::Events::left_side))]
    fn starts_with(&self, word: Word) -> bool
        ensures { result ≡ starts items.assignment word }
    {
        same_word(word, Word::Name) || same_word(word, Word::LeftBrace)
    }

    #[tactic(auto, unfolding(vl_rules::specs::Items::assignment))]
    fn read<'t>(&self, tokens: &'t [Token<'f>]) -> Read<'t, 'f, Self::Tree>
        ensures { Gives (λ x. (x.0, x.1.now)) result (reads (read_to self.now.reader.depth) items.assignment tokens.now) }
    {
        let (left, rest) = self.reader.left_side(tokens)?;
        let after = AfterEquals {
            reader: self.reader,
        };
        let (right, rest) = after.read(rest)?;
        Ok((Assignment { left, right }, rest))
    }
}

/// One or more expressions, with commas between.
pub fn expressions<'t, 'f>(
    reader: &Reader,
    tokens: &'t [Token<'f>],
) -> Read<'t, 'f, Items<Expr<'f>>>
    ensures { Gives (λ x. (x.0, x.1.now)) result (reads (read_to reader.now.depth) (shape.list spec.value) tokens.now) }
{
    list(reader.alloc, &Values { reader: *reader }, tokens)
}

/// A declaration of integers (A.2.1.3).
#[tactic(auto, unfolding(vl_rules::specs::Items::integers_item))]
pub fn integers_item<'t, 'f>(
    reader: &Reader,
    tokens: &'t [Token<'f>],
) -> Read<'t, 'f, Items<Var<'f>>>
    ensures { Gives (λ x. (x.0, x.1.now)) result (reads (read_to reader.now.depth) items.integers_item tokens.now) }
{
    let (_, rest) = expect(tokens, Word::Integer)?;
    let (vars, rest) = list(reader.alloc, &Vars { reader: *reader }, rest)?;
    let (_, rest) = expect(rest, Word::Semicolon)?;
    Ok((vars, rest))
}

/// A declaration of the names of loops over items, `genvar` (A.2.1.3).
#[tactic(auto, unfolding(vl_rules::specs::Items::loop_names_item))]
pub fn loop_names_item<'t, 'f>(
    reader: &Reader,
    tokens: &'t [Token<'f>],
) -> Read<'t, 'f, Items<Token<'f>>>
    ensures { Gives (λ x. (x.0, x.1.now)) result (reads (read_to reader.now.depth) items.loop_names_item tokens.now) }
{
    let (_, rest) = expect(tokens, Word::GenVar)?;
    let (names, rest) = list(reader.alloc, &Names { reader: *reader }, rest)?;
    let (_, rest) = expect(rest, Word::Semicolon)?;
    Ok((names, rest))
}

/// Continuous assignments (A.6.1).
#[tactic(auto, unfolding(vl_rules::specs::Items::assigns_item))]
pub fn assigns_item<'t, 'f>(
    reader: &Reader,
    tokens: &'t [Token<'f>],
) -> Read<'t, 'f, Items<Assignment<'f>>>
    ensures { Gives (λ x. (x.0, x.1.now)) result (reads (read_to reader.now.depth) items.assigns_item tokens.now) }
{
    let (_, rest) = expect(tokens, Word::Assign)?;
    let (all, rest) = list(reader.alloc, &Assignments { reader: *reader }, rest)?;
    let (_, rest) = expect(rest, Word::Semicolon)?;
    Ok((all, rest))
}
