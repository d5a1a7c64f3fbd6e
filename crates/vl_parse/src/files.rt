ghost use Rattle.std.specs.Prelude.{◌≡◌, ◌<◌, ◌≤◌, ◌∷◌, not, take_while, take, drop, length, IfOk, IfErr};
ghost use Rattle.vl_tree.specs.declared.words.Word.TheVariants as spec_word;
ghost use Rattle.vl_tree.specs.declared.faults.Place.TheVariants as spec_place;
ghost use Rattle.vl_tree.specs.Words as words;
ghost use Rattle.vl_rules.specs.Files.{cut};
ghost use Rattle.vl_parse.specs.Sources as spec;
ghost use Rattle.vl_parse.specs.Sources.{IsSource, IsFirst, FirstRefused, Refuses};

use crate::modules::whole_module;
use bits_core::Items;
use std::alloc::Global;
use vl_expr::ReadError;
use vl_tree::{
    Code, Fault, Module, Place, Source, Stop, Token, TokenList, Word, same_word, word_of,
};

fn is_end(token: &Token<'_>) -> bool
    ensures { result ≡ words.same_word (words.word_of token.now) spec_word.EndModule }
{
    same_word(word_of(token), Word::EndModule)
}

/// How many tokens stand before the first `endmodule`.
fn before_end(tokens: &[Token<'_>]) -> usize
    ensures { result ≡ length (take_while (λ t. not (words.same_word (words.word_of t) spec_word.EndModule)) tokens.now) }
{
    tokens.iter().take_while(|token| !is_end(*token)).count()
}

/// How many tokens the first part has, which ends with an `endmodule` or with the last token.
fn part_length(tokens: &[Token<'_>]) -> usize
    requires { 0 < length tokens.now }
    ensures part { cut tokens.now ≡ take result tokens.now ∷ cut (drop result tokens.now) }
    ensures some { 0 < result }
    ensures within { result ≤ length tokens.now }
{
    let before = before_end(tokens);
    if before < tokens.len() {
        before + 1
    } else {
        tokens.len()
    }
}

/// Where a token stands.
fn place_of(token: &Token<'_>) -> Place
    ensures { result ≡ spec_place.Line token.now.span.file token.now.span.line }
{
    Place::Line {
        file: token.span.file,
        line: token.span.line,
    }
}

/// Why no source is given where a part that begins with this token is not read.
fn refusal(error: ReadError, first: &Token<'_>) -> Stop
    ensures { result ≡ spec.refusal error first.now }
{
    match error {
        ReadError::NoMemory => Stop::NoMemory,
        ReadError::Refused => Stop::Fault(Fault {
            code: Code::Syntax,
            place: place_of(first),
        }),
    }
}

/// The module of the part that begins at a place, and the place behind it.
fn module_at<'f>(
    alloc: Global,
    tokens: &[Token<'f>],
    at: usize,
) -> Result<(Module<'f>, usize), Stop>
    requires { at < length tokens.now }
    ensures found { IfOk result (λ x. IsFirst x.0 (drop at tokens.now) (drop x.1 tokens.now)) }
    ensures further { IfOk result (λ x. at < x.1) }
    ensures within { IfOk result (λ x. x.1 ≤ length tokens.now) }
    ensures refused { IfErr result (λ stop. FirstRefused (drop at tokens.now) stop) }
{
    let rest = &tokens[at..];
    let count = part_length(rest);
    match whole_module(alloc, &rest[..count]) {
        Ok(module) => Ok((module, at + count)),
        Err(error) => Err(refusal(error, &rest[0])),
    }
}

/// The source that spells the tokens (IEEE 1364-2005, A.1.2); there is one at most.
///
/// Refuses with the fault of syntax exactly where no source spells the tokens: they are cut behind each `endmodule`, and the fault stands at the first token of
/// the first part that no module spells; and for want of memory, but with no limit. Linear in the tokens; takes stack for each statement, item, bracket, choice and
/// unary operator that is open.
pub fn parse_files<'f>(alloc: Global, tokens: &TokenList<'f>) -> Result<Source<'f>, Stop>
    ensures tree { IfOk result (λ modules. IsSource modules tokens.now) }
    ensures refused { IfErr result (λ stop. Refuses tokens.now stop) }
{
    let all = tokens.as_slice();
    let mut modules = Items::new(alloc);
    let mut at = 0;
    while at < all.len() {
        let (module, end) = module_at(alloc, all, at)?;
        modules.push(module)?;
        at = end;
    }
    Ok(modules)
}
