ghost use Rattle.std.specs.Prelude.{◌≡◌};
ghost use Rattle.vl_rules.specs.Form as spec;
ghost use Rattle.vl_rules.specs.Generate as generate;
ghost use Rattle.vl_rules.specs.Items as items;
ghost use Rattle.vl_rules.specs.Form.{item, reads, starts};
ghost use Rattle.vl_rules.specs.Modules.{read_to};
ghost use Rattle.vl_rules.specs.Statements.{at_most_one};
ghost use Rattle.vl_expr.specs.Gives.{Gives};

use bits_core::Items;
use sqlite_items::Boxed;
use std::alloc::Global;
use vl_expr::{Read, ReadError, expect, peek};
use vl_parse_bodies::{
    begins_declared, begins_placed, begins_written, declared_item, placed_item, written_item,
};
use vl_parse_parts::{Reader, begins_value, is_next};
use vl_parse_plain_items::expressions;
use vl_parse_writes::{Condition, kept_if};
use vl_tree::{Block, Gen, GenArm, Item, Token, Word, next_word, same_word};

/// Whether an item begins with this word.
#[tactic(auto, unfolding(vl_rules::specs::Form::rule_begins))]
fn begins_item(word: Word) -> bool
    ensures { result ≡ spec.rule_begins item word }
{
    match word {
        Word::Input | Word::Output | Word::Wire | Word::Reg | Word::Integer => true,
        Word::GenVar | Word::Parameter | Word::LocalParam | Word::Assign => true,
        Word::Always | Word::Initial | Word::Function | Word::Name => true,
        Word::And | Word::Nand | Word::Or | Word::Nor | Word::Xor | Word::Xnor => true,
        Word::Buf | Word::Not | Word::Generate | Word::For | Word::If | Word::Case => true,
        _ => false,
    }
}

/// Whether an arm of a `case` over items begins with this word.
#[tactic(auto, unfolding(vl_rules::specs::Generate::item_arm, vl_rules::specs::Statements::default_word))]
fn begins_arm(word: Word) -> bool
    ensures { result ≡ starts generate.item_arm word }
{
    same_word(word, Word::Default) || begins_value(word)
}

/// Any number of items.
#[cycle(item)]
pub fn module_items<'t, 'f>(
    reader: &Reader,
    tokens: &'t [Token<'f>],
) -> Read<'t, 'f, Items<Item<'f>>>
    ensures { Gives (λ x. (x.0, x.1.now)) result (reads (read_to reader.now.depth) (spec.many (spec.rule item)) tokens.now) }
{
    let mut found = Items::new(reader.alloc);
    let (_, mut rest) = peek(tokens)?;
    for _turn in 0..tokens.len() {
        if !begins_item(next_word(rest)) {
            return Ok((found, rest));
        }
        let (item, behind) = nested_item(reader.alloc, rest, reader.depth)?;
        found.push(item)?;
        rest = behind;
    }
    Ok((found, rest))
}

/// What a loop, a choice or an arm over items holds.
#[cycle(item)]
#[tactic(auto, unfolding(vl_rules::specs::Generate::block_form, vl_rules::specs::Generate::block_items))]
fn block<'t, 'f>(reader: &Reader, tokens: &'t [Token<'f>]) -> Read<'t, 'f, Block<'f>>
    ensures { Gives (λ x. (x.0, x.1.now)) result (reads (read_to reader.now.depth) generate.block_form tokens.now) }
{
    if is_next(tokens, Word::Begin) {
        let (_, rest) = expect(tokens, Word::Begin)?;
        let (name, rest) = reader.block_name(rest)?;
        let (items, rest) = module_items(reader, rest)?;
        let (_, rest) = expect(rest, Word::End)?;
        Ok((Block::Begin { name, items }, rest))
    } else if is_next(tokens, Word::Semicolon) {
        let (_, rest) = expect(tokens, Word::Semicolon)?;
        Ok((Block::Empty, rest))
    } else {
        let (item, rest) = nested_item(reader.alloc, tokens, reader.depth)?;
        let item = Boxed::new(reader.alloc, item)?;
        Ok((Block::Item(item), rest))
    }
}

#[cycle(item)]
#[tactic(auto, unfolding(vl_rules::specs::Generate::item_loop))]
#[inline(never)]
fn item_loop<'t, 'f>(reader: &Reader, tokens: &'t [Token<'f>]) -> Read<'t, 'f, Gen<'f>>
    ensures { Gives (λ x. (x.0, x.1.now)) result (reads (read_to reader.now.depth) generate.item_loop tokens.now) }
{
    let (_, rest) = expect(tokens, Word::For)?;
    let (head, rest) = reader.loop_head(rest)?;
    let (block, rest) = block(reader, rest)?;
    Ok((Gen::For { head, block }, rest))
}

/// A choice between items; an `else` goes to the nearest `if`.
#[cycle(item)]
#[tactic(auto, unfolding(vl_rules::specs::Generate::item_choice, vl_rules::specs::Generate::block_otherwise))]
#[inline(never)]
fn item_choice<'t, 'f>(reader: &Reader, tokens: &'t [Token<'f>]) -> Read<'t, 'f, Gen<'f>>
    ensures { Gives (λ x. (x.0, x.1.now)) result (reads (read_to reader.now.depth) generate.item_choice tokens.now) }
{
    let (_, rest) = expect(tokens, Word::If)?;
    let (test, rest) = reader.value_in_parens(rest)?;
    let (yes, rest) = block(reader, rest)?;
    if is_next(rest, Word::Else) {
        let (_, rest) = expect(rest, Word::Else)?;
        let (no, rest) = block(reader, rest)?;
        let no = Some(no);
        Ok((Gen::If { test, yes, no }, rest))
    } else {
        let no = None;
        Ok((Gen::If { test, yes, no }, rest))
    }
}

#[cycle(item)]
#[tactic(auto, unfolding(vl_rules::specs::Generate::item_arm, vl_rules::specs::Statements::default_word))]
#[inline(never)]
fn item_arm<'t, 'f>(reader: &Reader, tokens: &'t [Token<'f>]) -> Read<'t, 'f, GenArm<'f>>
    ensures { Gives (λ x. (x.0, x.1.now)) result (reads (read_to reader.now.depth) generate.item_arm tokens.now) }
{
    if is_next(tokens, Word::Default) {
        let (_, rest) = reader.default_word(tokens)?;
        let (block, rest) = block(reader, rest)?;
        Ok((GenArm::Default(block), rest))
    } else {
        let (values, rest) = expressions(reader, tokens)?;
        let (_, rest) = expect(rest, Word::Colon)?;
        let (block, rest) = block(reader, rest)?;
        Ok((GenArm::Match { values, block }, rest))
    }
}

/// Any number of arms.
#[cycle(item)]
#[inline(never)]
fn arm_row<'t, 'f>(reader: &Reader, tokens: &'t [Token<'f>]) -> Read<'t, 'f, Items<GenArm<'f>>>
    ensures { Gives (λ x. (x.0, x.1.now)) result (reads (read_to reader.now.depth) (spec.many generate.item_arm) tokens.now) }
{
    let mut found = Items::new(reader.alloc);
    let (_, mut rest) = peek(tokens)?;
    for _turn in 0..tokens.len() {
        if !begins_arm(next_word(rest)) {
            return Ok((found, rest));
        }
        let (arm, behind) = item_arm(reader, rest)?;
        found.push(arm)?;
        rest = behind;
    }
    Ok((found, rest))
}

/// A `case` over items; one at most of its arms is a `default`.
#[cycle(item)]
#[tactic(auto, unfolding(vl_rules::specs::Generate::item_cases, vl_rules::specs::Generate::item_arms))]
#[inline(never)]
fn item_cases<'t, 'f>(reader: &Reader, tokens: &'t [Token<'f>]) -> Read<'t, 'f, Gen<'f>>
    ensures { Gives (λ x. (x.0, x.1.now)) result (reads (read_to reader.now.depth) generate.item_cases tokens.now) }
{
    let (_, rest) = expect(tokens, Word::Case)?;
    let (selector, rest) = reader.value_in_parens(rest)?;
    let (arms, rest) = arm_row(reader, rest)?;
    let arms = kept_if(&OneDefault, arms)?;
    let (_, rest) = expect(rest, Word::EndCase)?;
    Ok((Gen::Case { selector, arms }, rest))
}

#[cycle(item)]
#[tactic(auto, unfolding(vl_rules::specs::Generate::generated, vl_rules::specs::Generate::item_loop, vl_rules::specs::Generate::item_choice))]
fn generated<'t, 'f>(reader: &Reader, tokens: &'t [Token<'f>]) -> Read<'t, 'f, Gen<'f>>
    ensures { Gives (λ x. (x.0, x.1.now)) result (reads (read_to reader.now.depth) generate.generated tokens.now) }
{
    if is_next(tokens, Word::For) {
        item_loop(reader, tokens)
    } else if is_next(tokens, Word::If) {
        item_choice(reader, tokens)
    } else {
        item_cases(reader, tokens)
    }
}

/// An item (A.1.4).
#[cycle(item)]
#[tactic(auto, unfolding(vl_rules::specs::Items::item_form, vl_rules::specs::Items::region))]
fn any_item<'t, 'f>(reader: &Reader, tokens: &'t [Token<'f>]) -> Read<'t, 'f, Item<'f>>
    ensures { Gives (λ x. (x.0, x.1.now)) result (reads (read_to reader.now.depth) items.item_form tokens.now) }
{
    let word = next_word(tokens);
    if begins_declared(word) {
        declared_item(reader, tokens)
    } else if begins_written(word) {
        written_item(reader, tokens)
    } else if begins_placed(word) {
        placed_item(reader, tokens)
    } else if is_next(tokens, Word::Generate) {
        let (_, rest) = expect(tokens, Word::Generate)?;
        let (items, rest) = module_items(reader, rest)?;
        let (_, rest) = expect(rest, Word::EndGenerate)?;
        Ok((Item::Generate(items), rest))
    } else {
        let (found, rest) = generated(reader, tokens)?;
        let found = Boxed::new(reader.alloc, found)?;
        Ok((Item::Gen(found), rest))
    }
}

/// Whether an arm is the `default`.
fn is_default_item(arm: &GenArm<'_>) -> bool
    ensures { result ≡ generate.is_default_item arm.now }
{
    match arm {
        GenArm::Default(_) => true,
        GenArm::Match { .. } => false,
    }
}

fn at_most_one_default(arms: &[GenArm<'_>]) -> bool
    ensures { result ≡ at_most_one generate.is_default_item arms.now }
{
    arms.iter().filter(|arm| is_default_item(arm)).count() <= 1
}

/// That one at most of the arms is a `default`.
#[derive(Clone, Copy)]
struct OneDefault;

impl<'f> Condition<'f> for OneDefault {
    ghost use Rattle.std.specs.Prelude.{◌≡◌};
    ghost use Rattle.vl_rules.specs.Generate as generate;
    ghost use Rattle.vl_rules.specs.Statements.{at_most_one};

    type Tree = GenArm<'f>;

    ghost holds = { λ s. at_most_one generate.is_default_item };

    fn holds_of(&self, trees: &[GenArm<'f>]) -> bool
        ensures { result ≡ at_most_one generate.is_default_item trees.now }
    {
        at_most_one_default(trees)
    }
}

/// An item, with rules nested to a depth.
#[cycle(item)]
#[tactic(auto, unfolding(vl_rules::specs::Modules::read_to, vl_rules::specs::Modules::body))]
fn nested_item<'t, 'f>(
    alloc: Global,
    tokens: &'t [Token<'f>],
    depth: usize,
) -> Result<(Item<'f>, &'t [Token<'f>]), ReadError>
    ensures { Gives (λ x. (x.0, x.1.now)) result (read_to depth item tokens.now) }
{
    if depth == 0 {
        return Err(ReadError::Refused);
    }
    let reader = Reader {
        alloc,
        depth: depth - 1,
    };
    any_item(&reader, tokens)
}
