ghost use Rattle.std.specs.Prelude.{◌≡◌, [], ◌∷◌, IfOk};
ghost use Rattle.vl_rules.specs.Form as spec;
ghost use Rattle.vl_rules.specs.Statements as statements;
ghost use Rattle.vl_rules.specs.Form.{stmt, reads, starts};
ghost use Rattle.vl_rules.specs.Modules.{read_to};
ghost use Rattle.vl_expr.specs.Gives.{Gives};

use bits_core::{Items, NoMemory};
use sqlite_items::Boxed;
use std::alloc::Global;
use vl_expr::{Read, ReadError, expect, peek};
use vl_parse_parts::{Reader, begins_value, is_next};
use vl_parse_writes::{Condition, arm_values, kept_if, loop_of, write};
use vl_tree::{CaseWord, Citem, Stmt, Token, Word, next_word, same_word};

/// Whether a statement begins with this word.
#[tactic(auto, unfolding(vl_rules::specs::Form::rule_begins))]
fn begins_statement(word: Word) -> bool
    ensures { result ≡ spec.rule_begins stmt word }
{
    match word {
        Word::Semicolon | Word::Begin | Word::If | Word::Case => true,
        Word::CaseZ | Word::For | Word::Name | Word::LeftBrace => true,
        _ => false,
    }
}

/// Whether an arm begins with this word.
#[tactic(auto, unfolding(vl_rules::specs::Statements::arm, vl_rules::specs::Statements::arm_values, vl_rules::specs::Statements::default_word))]
fn begins_arm(word: Word, kind: CaseWord) -> bool
    ensures { result ≡ starts (statements.arm kind) word }
{
    match kind {
        CaseWord::Case => same_word(word, Word::Default) || begins_value(word),
        CaseWord::CaseZ => {
            same_word(word, Word::Default)
                || (same_word(word, Word::FreeNumber) || begins_value(word))
        }
    }
}

fn only<T: Drop>(alloc: Global, item: T) -> Result<Items<T>, NoMemory>
    ensures { IfOk result (λ all. all ≡ item ∷ []) }
{
    let mut all = Items::new(alloc);
    all.push(item)?;
    Ok(all)
}

/// Any number of statements.
#[cycle(statement)]
fn body<'t, 'f>(reader: &Reader, tokens: &'t [Token<'f>]) -> Read<'t, 'f, Items<Stmt<'f>>>
    ensures { Gives (λ x. (x.0, x.1.now)) result (reads (read_to reader.now.depth) (spec.many (spec.rule stmt)) tokens.now) }
{
    let mut found = Items::new(reader.alloc);
    let (_, mut rest) = peek(tokens)?;
    for _turn in 0..tokens.len() {
        if !begins_statement(next_word(rest)) {
            return Ok((found, rest));
        }
        let (item, behind) = nested_statement(reader.alloc, rest, reader.depth)?;
        found.push(item)?;
        rest = behind;
    }
    Ok((found, rest))
}

#[cycle(statement)]
#[tactic(auto, unfolding(vl_rules::specs::Statements::sequence))]
fn sequence<'t, 'f>(reader: &Reader, tokens: &'t [Token<'f>]) -> Read<'t, 'f, Stmt<'f>>
    ensures { Gives (λ x. (x.0, x.1.now)) result (reads (read_to reader.now.depth) statements.sequence tokens.now) }
{
    let (_, rest) = expect(tokens, Word::Begin)?;
    let (name, rest) = reader.block_name(rest)?;
    let (body, rest) = body(reader, rest)?;
    let (_, rest) = expect(rest, Word::End)?;
    Ok((Stmt::Begin { name, body }, rest))
}

/// A choice; an `else` goes to the nearest `if`.
#[cycle(statement)]
#[tactic(auto, unfolding(vl_rules::specs::Statements::choice, vl_rules::specs::Statements::otherwise))]
fn choice<'t, 'f>(reader: &Reader, tokens: &'t [Token<'f>]) -> Read<'t, 'f, Stmt<'f>>
    ensures { Gives (λ x. (x.0, x.1.now)) result (reads (read_to reader.now.depth) statements.choice tokens.now) }
{
    let (_, rest) = expect(tokens, Word::If)?;
    let (test, rest) = reader.value_in_parens(rest)?;
    let (yes, rest) = nested_statement(reader.alloc, rest, reader.depth)?;
    let yes = Boxed::new(reader.alloc, yes)?;
    if is_next(rest, Word::Else) {
        let (_, rest) = expect(rest, Word::Else)?;
        let (no, rest) = nested_statement(reader.alloc, rest, reader.depth)?;
        let no = Some(Boxed::new(reader.alloc, no)?);
        Ok((Stmt::If { test, yes, no }, rest))
    } else {
        let no = None;
        Ok((Stmt::If { test, yes, no }, rest))
    }
}

#[cycle(statement)]
#[tactic(auto, unfolding(vl_rules::specs::Statements::arm, vl_rules::specs::Statements::default_word))]
fn arm<'t, 'f>(reader: &Reader, tokens: &'t [Token<'f>], kind: CaseWord) -> Read<'t, 'f, Citem<'f>>
    ensures { Gives (λ x. (x.0, x.1.now)) result (reads (read_to reader.now.depth) (statements.arm kind) tokens.now) }
{
    if is_next(tokens, Word::Default) {
        let (_, rest) = reader.default_word(tokens)?;
        let (body, rest) = nested_statement(reader.alloc, rest, reader.depth)?;
        Ok((Citem::Default(body), rest))
    } else {
        let (values, rest) = arm_values(reader, tokens, kind)?;
        let (_, rest) = expect(rest, Word::Colon)?;
        let (body, rest) = nested_statement(reader.alloc, rest, reader.depth)?;
        Ok((Citem::Match { values, body }, rest))
    }
}

/// One arm, and more while the next word begins one.
#[cycle(statement)]
#[tactic(auto, unfolding(vl_rules::specs::Statements::arm_row))]
fn arm_row<'t, 'f>(
    reader: &Reader,
    tokens: &'t [Token<'f>],
    kind: CaseWord,
) -> Read<'t, 'f, Items<Citem<'f>>>
    ensures { Gives (λ x. (x.0, x.1.now)) result (reads (read_to reader.now.depth) (statements.arm_row kind) tokens.now) }
{
    let (first, mut rest) = arm(reader, tokens, kind)?;
    let mut found = only(reader.alloc, first)?;
    for _turn in 0..rest.len() {
        if !begins_arm(next_word(rest), kind) {
            return Ok((found, rest));
        }
        let (item, behind) = arm(reader, rest, kind)?;
        found.push(item)?;
        rest = behind;
    }
    Ok((found, rest))
}

/// A `case` or a `casez`; one at most of its arms is a `default`.
#[cycle(statement)]
#[tactic(auto, unfolding(vl_rules::specs::Statements::cases, vl_rules::specs::Statements::arms))]
fn cases<'t, 'f>(
    reader: &Reader,
    tokens: &'t [Token<'f>],
    word: Word,
    kind: CaseWord,
) -> Read<'t, 'f, Stmt<'f>>
    ensures { Gives (λ x. (x.0, x.1.now)) result (reads (read_to reader.now.depth) (statements.cases word kind) tokens.now) }
{
    let (_, rest) = expect(tokens, word)?;
    let (selector, rest) = reader.value_in_parens(rest)?;
    let (items, rest) = arm_row(reader, rest, kind)?;
    let items = kept_if(&OneDefault, items)?;
    let (_, rest) = expect(rest, Word::EndCase)?;
    let case = Stmt::Case {
        word: kind,
        selector,
        items,
    };
    Ok((case, rest))
}

#[cycle(statement)]
#[tactic(auto, unfolding(vl_rules::specs::Statements::turns))]
fn turns<'t, 'f>(reader: &Reader, tokens: &'t [Token<'f>]) -> Read<'t, 'f, Stmt<'f>>
    ensures { Gives (λ x. (x.0, x.1.now)) result (reads (read_to reader.now.depth) statements.turns tokens.now) }
{
    let (_, rest) = expect(tokens, Word::For)?;
    let (head, rest) = reader.loop_head(rest)?;
    let (body, rest) = nested_statement(reader.alloc, rest, reader.depth)?;
    let body = Boxed::new(reader.alloc, body)?;
    Ok((loop_of(head, body), rest))
}

/// A statement (A.6.4).
#[cycle(statement)]
#[tactic(auto, unfolding(vl_rules::specs::Statements::statement, vl_rules::specs::Statements::sequence, vl_rules::specs::Statements::choice, vl_rules::specs::Statements::cases, vl_rules::specs::Statements::turns))]
fn statement<'t, 'f>(reader: &Reader, tokens: &'t [Token<'f>]) -> Read<'t, 'f, Stmt<'f>>
    ensures { Gives (λ x. (x.0, x.1.now)) result (reads (read_to reader.now.depth) statements.statement tokens.now) }
{
    if is_next(tokens, Word::Semicolon) {
        let (_, rest) = expect(tokens, Word::Semicolon)?;
        Ok((Stmt::Empty, rest))
    } else if is_next(tokens, Word::Begin) {
        sequence(reader, tokens)
    } else if is_next(tokens, Word::If) {
        choice(reader, tokens)
    } else if is_next(tokens, Word::Case) {
        cases(reader, tokens, Word::Case, CaseWord::Case)
    } else if is_next(tokens, Word::CaseZ) {
        cases(reader, tokens, Word::CaseZ, CaseWord::CaseZ)
    } else if is_next(tokens, Word::For) {
        turns(reader, tokens)
    } else {
        write(reader, tokens)
    }
}

/// Whether an arm is the `default`.
fn is_default(arm: &Citem<'_>) -> bool
    ensures { result ≡ statements.is_default arm.now }
{
    match arm {
        Citem::Default(_) => true,
        Citem::Match { .. } => false,
    }
}

fn at_most_one_default(arms: &[Citem<'_>]) -> bool
    ensures { result ≡ statements.at_most_one statements.is_default arms.now }
{
    arms.iter().filter(|arm| is_default(arm)).count() <= 1
}

/// That one at most of the arms is a `default`.
#[derive(Clone, Copy)]
struct OneDefault;

impl<'f> Condition<'f> for OneDefault {
    ghost use Rattle.std.specs.Prelude.{◌≡◌};
    ghost use Rattle.vl_rules.specs.Statements as statements;

    type Tree = Citem<'f>;

    ghost holds = { λ s. statements.at_most_one statements.is_default };

    fn holds_of(&self, trees: &[Citem<'f>]) -> bool
        ensures { result ≡ statements.at_most_one statements.is_default trees.now }
    {
        at_most_one_default(trees)
    }
}

/// A statement, with rules nested to a depth.
#[cycle(statement)]
#[tactic(auto, unfolding(vl_rules::specs::Modules::read_to, vl_rules::specs::Modules::body))]
pub fn nested_statement<'t, 'f>(
    alloc: Global,
    tokens: &'t [Token<'f>],
    depth: usize,
) -> Result<(Stmt<'f>, &'t [Token<'f>]), ReadError>
    ensures { Gives (λ x. (x.0, x.1.now)) result (read_to depth stmt tokens.now) }
{
    if depth == 0 {
        return Err(ReadError::Refused);
    }
    let reader = Reader {
        alloc,
        depth: depth - 1,
    };
    statement(&reader, tokens)
}
