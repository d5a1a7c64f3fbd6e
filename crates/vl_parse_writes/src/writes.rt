ghost use Rattle.std.specs.Prelude.{◌≡◌};
ghost use Rattle.vl_rules.specs.Statements as statements;
ghost use Rattle.vl_tree.specs.declared.statements.CaseWord.TheVariants as spec_case;
ghost use Rattle.vl_tree.specs.declared.statements.Stmt.TheVariants as tree;
ghost use Rattle.vl_rules.specs.Form.{reads};
ghost use Rattle.vl_rules.specs.Modules.{read_to};
ghost use Rattle.vl_expr.specs.Gives.{Gives};

use bits_core::Items;
use sqlite_items::Boxed;
use std::alloc::Global;
use vl_expr::{Read, ReadError, expect};
use vl_parse_parts::{Part, Reader, begins_value, is_next, list};
use vl_tree::{AssignWord, CaseWord, Expr, LoopHead, Stmt, Token, Word, same_word};

/// Values of an arm; a number with free bits is one of a `casez` alone, by itself.
#[derive(Clone, Copy)]
struct ArmValues {
    reader: Reader,
    kind: CaseWord,
}

impl<'f> Part<'f> for ArmValues {
    ghost use Rattle.std.specs.Prelude.{◌≡◌};
    ghost use Rattle.vl_rules.specs.Form.{reads, starts};
    ghost use Rattle.vl_rules.specs.Modules.{read_to};
    ghost use Rattle.vl_rules.specs.Statements as statements;
    ghost use Rattle.vl_expr.specs.Gives.{Gives};

    type Tree = Expr<'f>;

    ghost ready = { λ s. Unit {0} };

    ghost begin = { λ s. starts (statements.arm_value s.kind) };

    ghost parser = { λ s. reads (read_to s.reader.depth) (statements.arm_value s.kind) };

    fn starts_with(&self, word: Word) -> bool
        ensures { result ≡ starts (statements.arm_value self.now.kind) word }
    {
        match self.kind {
            CaseWord::Case => begins_value(word),
            CaseWord::CaseZ => same_word(word, Word::FreeNumber) || begins_value(word),
        }
    }

    fn read<'t>(&self, tokens: &'t [Token<'f>]) -> Read<'t, 'f, Self::Tree>
        ensures { Gives (λ x. (x.0, x.1.now)) result (reads (read_to self.now.reader.depth) (statements.arm_value self.now.kind) tokens.now) }
    {
        match self.kind {
            CaseWord::Case => self.reader.value(tokens),
            CaseWord::CaseZ => free_or_value(&self.reader, tokens),
        }
    }
}

fn free_or_value<'t, 'f>(reader: &Reader, tokens: &'t [Token<'f>]) -> Read<'t, 'f, Expr<'f>>
    ensures { Gives (λ x. (x.0, x.1.now)) result (reads (read_to reader.now.depth) (statements.arm_value spec_case.CaseZ) tokens.now) }
{
    if is_next(tokens, Word::FreeNumber) {
        let (number, rest) = expect(tokens, Word::FreeNumber)?;
        Ok((Expr::Number(number), rest))
    } else {
        reader.value(tokens)
    }
}

/// The values of an arm.
#[tactic(auto, unfolding(vl_rules::specs::Statements::arm_values))]
pub fn arm_values<'t, 'f>(
    reader: &Reader,
    tokens: &'t [Token<'f>],
    kind: CaseWord,
) -> Read<'t, 'f, Items<Expr<'f>>>
    ensures { Gives (λ x. (x.0, x.1.now)) result (reads (read_to reader.now.depth) (statements.arm_values kind) tokens.now) }
{
    list(
        reader.alloc,
        &ArmValues {
            reader: *reader,
            kind,
        },
        tokens,
    )
}

#[tactic(auto, unfolding(vl_rules::specs::Statements::assign_word))]
fn assign_word<'t, 'f>(reader: &Reader, tokens: &'t [Token<'f>]) -> Read<'t, 'f, AssignWord>
    ensures { Gives (λ x. (x.0, x.1.now)) result (reads (read_to reader.now.depth) statements.assign_word tokens.now) }
{
    if is_next(tokens, Word::EqualSign) {
        let (_, rest) = expect(tokens, Word::EqualSign)?;
        Ok((AssignWord::Blocking, rest))
    } else {
        let (_, rest) = expect(tokens, Word::LessEqual)?;
        Ok((AssignWord::Nonblocking, rest))
    }
}

/// A write (A.6.2).
#[tactic(auto, unfolding(vl_rules::specs::Statements::write))]
pub fn write<'t, 'f>(reader: &Reader, tokens: &'t [Token<'f>]) -> Read<'t, 'f, Stmt<'f>>
    ensures { Gives (λ x. (x.0, x.1.now)) result (reads (read_to reader.now.depth) statements.write tokens.now) }
{
    let (left, rest) = reader.left_side(tokens)?;
    let (word, rest) = assign_word(reader, rest)?;
    let (right, rest) = reader.value(rest)?;
    let (_, rest) = expect(rest, Word::Semicolon)?;
    Ok((Stmt::Assign { left, word, right }, rest))
}

/// A loop with its head and its body.
pub fn loop_of<'f>(head: LoopHead<'f>, body: Boxed<Stmt<'f>>) -> Stmt<'f>
    ensures { result ≡ tree.For head.entry.start_name head.entry.start head.entry.test head.entry.step_name head.entry.step body.entry }
{
    let LoopHead {
        start_name,
        start,
        test,
        step_name,
        step,
    } = head;
    Stmt::For {
        start_name,
        start,
        test,
        step_name,
        step,
        body,
    }
}
