ghost use Rattle.std.specs.Prelude.{◌≡◌};
ghost use Rattle.vl_rules.specs.Form as spec;
ghost use Rattle.vl_rules.specs.Functions as functions;
ghost use Rattle.vl_rules.specs.Shapes as shape;
ghost use Rattle.vl_rules.specs.Form.{reads};
ghost use Rattle.vl_rules.specs.Modules.{read_to};
ghost use Rattle.vl_expr.specs.Gives.{Gives};

use bits_core::Items;
use std::alloc::Global;
use vl_expr::{Read, ReadError, expect};
use vl_parse_declarations::Ranges;
use vl_parse_parts::{Names, Part, Reader, is_next, list, many, maybe};
use vl_tree::{Fdecl, FunctionInput, FunctionWord, Token, Word, same_word};

/// Inputs in a function's head.
#[derive(Clone, Copy)]
struct FunctionInputs {
    pub reader: Reader,
}

impl<'f> Part<'f> for FunctionInputs {
    ghost use Rattle.std.specs.Prelude.{◌≡◌};
    ghost use Rattle.vl_rules.specs.Functions as functions;
    ghost use Rattle.vl_rules.specs.Form.{reads, starts};
    ghost use Rattle.vl_rules.specs.Modules.{read_to};
    ghost use Rattle.vl_expr.specs.Gives.{Gives};

    type Tree = FunctionInput<'f>;

    ghost ready = { λ s. Unit {0} };

    ghost begin = { λ s. starts functions.function_input };

    ghost parser = { λ s. reads (read_to s.reader.depth) functions.function_input };

    #[tactic(auto, unfolding(vl_rules::specs::Functions::function_input))]
    fn starts_with(&self, word: Word) -> bool
        ensures { result ≡ starts functions.function_input word }
    {
        same_word(word, Word::Input)
    }

    #[tactic(auto, unfolding(vl_rules::specs::Functions::function_input))]
    fn read<'t>(&self, tokens: &'t [Token<'f>]) -> Read<'t, 'f, Self::Tree>
        ensures { Gives (λ x. (x.0, x.1.now)) result (reads (read_to self.now.reader.depth) functions.function_input tokens.now) }
    {
        let (_, rest) = expect(tokens, Word::Input)?;
        let (signed, rest) = self.reader.flag(rest, Word::Signed)?;
        let ranges = Ranges {
            reader: self.reader,
        };
        let (range, rest) = maybe(&ranges, rest)?;
        let (name, rest) = expect(rest, Word::Name)?;
        let input = FunctionInput {
            signed,
            range,
            name,
        };
        Ok((input, rest))
    }
}

/// Declarations in a function.
#[derive(Clone, Copy)]
struct Declarations {
    pub reader: Reader,
}

impl<'f> Part<'f> for Declarations {
    ghost use Rattle.std.specs.Prelude.{◌≡◌};
    ghost use Rattle.vl_rules.specs.Functions as functions;
    ghost use Rattle.vl_rules.specs.Form.{reads, starts};
    ghost use Rattle.vl_rules.specs.Modules.{read_to};
    ghost use Rattle.vl_expr.specs.Gives.{Gives};

    type Tree = Fdecl<'f>;

    ghost ready = { λ s. Unit {0} };

    ghost begin = { λ s. starts functions.declaration };

    ghost parser = { λ s. reads (read_to s.reader.depth) functions.declaration };

    #[tactic(auto, unfolding(vl_rules::specs::Functions::declaration, vl_rules::specs::Functions::local_word, vl_rules::specs::Functions::vector))]
    fn starts_with(&self, word: Word) -> bool
        ensures { result ≡ starts functions.declaration word }
    {
        same_word(word, Word::Integer)
            || (same_word(word, Word::Input) || same_word(word, Word::Reg))
    }

    #[tactic(auto, unfolding(vl_rules::specs::Functions::declaration))]
    fn read<'t>(&self, tokens: &'t [Token<'f>]) -> Read<'t, 'f, Self::Tree>
        ensures { Gives (λ x. (x.0, x.1.now)) result (reads (read_to self.now.reader.depth) functions.declaration tokens.now) }
    {
        if is_next(tokens, Word::Integer) {
            let (_, rest) = expect(tokens, Word::Integer)?;
            let (names, rest) = names_before_semicolon(&self.reader, rest)?;
            Ok((Fdecl::Integer(names), rest))
        } else {
            vector(&self.reader, tokens)
        }
    }
}

fn names_before_semicolon<'t, 'f>(
    reader: &Reader,
    tokens: &'t [Token<'f>],
) -> Read<'t, 'f, Items<Token<'f>>>
    ensures { Gives (λ x. (x.0, x.1.now)) result (reads (read_to reader.now.depth) (shape.ended (shape.list shape.name)) tokens.now) }
{
    let (names, rest) = list(reader.alloc, &Names { reader: *reader }, tokens)?;
    let (_, rest) = expect(rest, Word::Semicolon)?;
    Ok((names, rest))
}

#[tactic(auto, unfolding(vl_rules::specs::Functions::local_word))]
fn local_word<'t, 'f>(reader: &Reader, tokens: &'t [Token<'f>]) -> Read<'t, 'f, FunctionWord>
    ensures { Gives (λ x. (x.0, x.1.now)) result (reads (read_to reader.now.depth) functions.local_word tokens.now) }
{
    if is_next(tokens, Word::Input) {
        let (_, rest) = expect(tokens, Word::Input)?;
        Ok((FunctionWord::Input, rest))
    } else {
        let (_, rest) = expect(tokens, Word::Reg)?;
        Ok((FunctionWord::Reg, rest))
    }
}

#[tactic(auto, unfolding(vl_rules::specs::Functions::vector))]
fn vector<'t, 'f>(reader: &Reader, tokens: &'t [Token<'f>]) -> Read<'t, 'f, Fdecl<'f>>
    ensures { Gives (λ x. (x.0, x.1.now)) result (reads (read_to reader.now.depth) functions.vector tokens.now) }
{
    let (word, rest) = local_word(reader, tokens)?;
    let (signed, rest) = reader.flag(rest, Word::Signed)?;
    let (range, rest) = maybe(&Ranges { reader: *reader }, rest)?;
    let (names, rest) = names_before_semicolon(reader, rest)?;
    let declaration = Fdecl::Vector {
        word,
        signed,
        range,
        names,
    };
    Ok((declaration, rest))
}

/// The inputs in a function's head (A.2.6), where its brackets stand.
#[tactic(auto, unfolding(vl_rules::specs::Functions::inputs))]
pub fn function_inputs<'t, 'f>(
    reader: &Reader,
    tokens: &'t [Token<'f>],
) -> Read<'t, 'f, Option<Items<FunctionInput<'f>>>>
    ensures { Gives (λ x. (x.0, x.1.now)) result (reads (read_to reader.now.depth) functions.inputs tokens.now) }
{
    if is_next(tokens, Word::LeftParen) {
        let (_, rest) = expect(tokens, Word::LeftParen)?;
        let (inputs, rest) = list(reader.alloc, &FunctionInputs { reader: *reader }, rest)?;
        let (_, rest) = expect(rest, Word::RightParen)?;
        Ok((Some(inputs), rest))
    } else {
        Ok((None, tokens))
    }
}

/// The declarations in a function, behind its head (A.2.6, A.2.8).
pub fn function_declarations<'t, 'f>(
    reader: &Reader,
    tokens: &'t [Token<'f>],
) -> Read<'t, 'f, Items<Fdecl<'f>>>
    ensures { Gives (λ x. (x.0, x.1.now)) result (reads (read_to reader.now.depth) (spec.many functions.declaration) tokens.now) }
{
    many(reader.alloc, &Declarations { reader: *reader }, tokens)
}
