ghost use Rattle.std.specs.Prelude.{◌≡◌};
ghost use Rattle.vl_rules.specs.Declarations as declared;
ghost use Rattle.vl_rules.specs.Form.{reads};
ghost use Rattle.vl_rules.specs.Modules.{read_to};
ghost use Rattle.vl_expr.specs.Gives.{Gives};

use std::alloc::Global;
use vl_expr::{Read, ReadError, expect};
use vl_parse_parts::{AfterEquals, Names, Part, Reader, is_next, list, maybe};
use vl_tree::{
    ConstantValue, Dir, NetItem, NetWord, ParameterItem, ParameterWord, PortItem, Ptype, Range,
    Token, Var, Word, same_word,
};

/// Ranges.
#[derive(Clone, Copy)]
pub struct Ranges {
    pub reader: Reader,
}

impl<'f> Part<'f> for Ranges {
    ghost use Rattle.std.specs.Prelude.{◌≡◌};
    ghost use Rattle.vl_rules.specs.Declarations as declared;
    ghost use Rattle.vl_rules.specs.Form.{reads, starts};
    ghost use Rattle.vl_rules.specs.Modules.{read_to};
    ghost use Rattle.vl_expr.specs.Gives.{Gives};

    type Tree = Range<'f>;

    ghost ready = { λ s. Unit {0} };

    ghost begin = { λ s. starts declared.range };

    ghost parser = { λ s. reads (read_to s.reader.depth) declared.range };

    #[tactic(auto, unfolding(vl_rules::specs::Declarations::range))]
    fn starts_with(&self, word: Word) -> bool
        ensures { result ≡ starts declared.range word }
    {
        same_word(word, Word::LeftBracket)
    }

    #[tactic(auto, unfolding(vl_rules::specs::Declarations::range))]
    fn read<'t>(&self, tokens: &'t [Token<'f>]) -> Read<'t, 'f, Self::Tree>
        ensures { Gives (λ x. (x.0, x.1.now)) result (reads (read_to self.now.reader.depth) declared.range tokens.now) }
    {
        let (_, rest) = expect(tokens, Word::LeftBracket)?;
        let (left, rest) = self.reader.value(rest)?;
        let (_, rest) = expect(rest, Word::Colon)?;
        let (right, rest) = self.reader.value(rest)?;
        let (_, rest) = expect(rest, Word::RightBracket)?;
        Ok((Range { left, right }, rest))
    }
}

/// `wire` or `reg`.
#[derive(Clone, Copy)]
pub struct NetWords {
    pub reader: Reader,
}

impl<'f> Part<'f> for NetWords {
    ghost use Rattle.std.specs.Prelude.{◌≡◌};
    ghost use Rattle.vl_rules.specs.Declarations as declared;
    ghost use Rattle.vl_rules.specs.Form.{reads, starts};
    ghost use Rattle.vl_rules.specs.Modules.{read_to};
    ghost use Rattle.vl_expr.specs.Gives.{Gives};

    type Tree = NetWord;

    ghost ready = { λ s. Unit {0} };

    ghost begin = { λ s. starts declared.net_word };

    ghost parser = { λ s. reads (read_to s.reader.depth) declared.net_word };

    #[tactic(auto, unfolding(vl_rules::specs::Declarations::net_word))]
    fn starts_with(&self, word: Word) -> bool
        ensures { result ≡ starts declared.net_word word }
    {
        same_word(word, Word::Wire) || same_word(word, Word::Reg)
    }

    #[tactic(auto, unfolding(vl_rules::specs::Declarations::net_word))]
    fn read<'t>(&self, tokens: &'t [Token<'f>]) -> Read<'t, 'f, Self::Tree>
        ensures { Gives (λ x. (x.0, x.1.now)) result (reads (read_to self.now.reader.depth) declared.net_word tokens.now) }
    {
        if is_next(tokens, Word::Wire) {
            let (_, rest) = expect(tokens, Word::Wire)?;
            Ok((NetWord::Wire, rest))
        } else {
            let (_, rest) = expect(tokens, Word::Reg)?;
            Ok((NetWord::Reg, rest))
        }
    }
}

/// Names, each perhaps with a value.
#[derive(Clone, Copy)]
pub struct Vars {
    pub reader: Reader,
}

impl<'f> Part<'f> for Vars {
    ghost use Rattle.std.specs.Prelude.{◌≡◌};
    ghost use Rattle.vl_rules.specs.Declarations as declared;
    ghost use Rattle.vl_rules.specs.Form.{reads, starts};
    ghost use Rattle.vl_rules.specs.Modules.{read_to};
    ghost use Rattle.vl_expr.specs.Gives.{Gives};

    type Tree = Var<'f>;

    ghost ready = { λ s. Unit {0} };

    ghost begin = { λ s. starts declared.var };

    ghost parser = { λ s. reads (read_to s.reader.depth) declared.var };

    #[tactic(auto, unfolding(vl_rules::specs::Declarations::var))]
    fn starts_with(&self, word: Word) -> bool
        ensures { result ≡ starts declared.var word }
    {
        same_word(word, Word::Name)
    }

    #[tactic(auto, unfolding(vl_rules::specs::Declarations::var))]
    fn read<'t>(&self, tokens: &'t [Token<'f>]) -> Read<'t, 'f, Self::Tree>
        ensures { Gives (λ x. (x.0, x.1.now)) result (reads (read_to self.now.reader.depth) declared.var tokens.now) }
    {
        let (name, rest) = expect(tokens, Word::Name)?;
        let after = AfterEquals {
            reader: self.reader,
        };
        let (value, rest) = maybe(&after, rest)?;
        Ok((Var { name, value }, rest))
    }
}

/// Names, each with a value.
#[derive(Clone, Copy)]
pub struct ConstantValues {
    pub reader: Reader,
}

impl<'f> Part<'f> for ConstantValues {
    ghost use Rattle.std.specs.Prelude.{◌≡◌};
    ghost use Rattle.vl_rules.specs.Declarations as declared;
    ghost use Rattle.vl_rules.specs.Form.{reads, starts};
    ghost use Rattle.vl_rules.specs.Modules.{read_to};
    ghost use Rattle.vl_expr.specs.Gives.{Gives};

    type Tree = ConstantValue<'f>;

    ghost ready = { λ s. Unit {0} };

    ghost begin = { λ s. starts declared.constant_value };

    ghost parser = { λ s. reads (read_to s.reader.depth) declared.constant_value };

    #[tactic(auto, unfolding(vl_rules::specs::Declarations::constant_value))]
    fn starts_with(&self, word: Word) -> bool
        ensures { result ≡ starts declared.constant_value word }
    {
        same_word(word, Word::Name)
    }

    #[tactic(auto, unfolding(vl_rules::specs::Declarations::constant_value))]
    fn read<'t>(&self, tokens: &'t [Token<'f>]) -> Read<'t, 'f, Self::Tree>
        ensures { Gives (λ x. (x.0, x.1.now)) result (reads (read_to self.now.reader.depth) declared.constant_value tokens.now) }
    {
        let (name, rest) = expect(tokens, Word::Name)?;
        let after = AfterEquals {
            reader: self.reader,
        };
        let (value, rest) = after.read(rest)?;
        Ok((ConstantValue { name, value }, rest))
    }
}

/// The type of a sign and a range, of which one at least stands.
fn vector_type<'f>(signed: bool, range: Option<Range<'f>>) -> Option<Ptype<'f>>
    ensures { result ≡ declared.vector_type (signed, range.entry) }
{
    if signed {
        return Some(Ptype::Vector { signed, range });
    }
    match range {
        None => None,
        Some(range) => Some(Ptype::Vector {
            signed,
            range: Some(range),
        }),
    }
}

/// A type, which is absent where neither `integer` nor a sign nor a range stands.
#[tactic(auto, unfolding(vl_rules::specs::Declarations::type_form))]
pub fn ptype<'t, 'f>(reader: &Reader, tokens: &'t [Token<'f>]) -> Read<'t, 'f, Option<Ptype<'f>>>
    ensures { Gives (λ x. (x.0, x.1.now)) result (reads (read_to reader.now.depth) declared.type_form tokens.now) }
{
    if is_next(tokens, Word::Integer) {
        let (_, rest) = expect(tokens, Word::Integer)?;
        Ok((Some(Ptype::Integer), rest))
    } else {
        let (signed, rest) = reader.flag(tokens, Word::Signed)?;
        let (range, rest) = maybe(&Ranges { reader: *reader }, rest)?;
        Ok((vector_type(signed, range), rest))
    }
}

/// `input` or `output` (A.2.1.2).
#[tactic(auto, unfolding(vl_rules::specs::Declarations::direction))]
pub fn direction<'t, 'f>(reader: &Reader, tokens: &'t [Token<'f>]) -> Read<'t, 'f, Dir>
    ensures { Gives (λ x. (x.0, x.1.now)) result (reads (read_to reader.now.depth) declared.direction tokens.now) }
{
    if is_next(tokens, Word::Input) {
        let (_, rest) = expect(tokens, Word::Input)?;
        Ok((Dir::Input, rest))
    } else {
        let (_, rest) = expect(tokens, Word::Output)?;
        Ok((Dir::Output, rest))
    }
}

#[tactic(auto, unfolding(vl_rules::specs::Declarations::constant_word))]
fn constant_word<'t, 'f>(reader: &Reader, tokens: &'t [Token<'f>]) -> Read<'t, 'f, ParameterWord>
    ensures { Gives (λ x. (x.0, x.1.now)) result (reads (read_to reader.now.depth) declared.constant_word tokens.now) }
{
    if is_next(tokens, Word::Parameter) {
        let (_, rest) = expect(tokens, Word::Parameter)?;
        Ok((ParameterWord::Parameter, rest))
    } else {
        let (_, rest) = expect(tokens, Word::LocalParam)?;
        Ok((ParameterWord::LocalParam, rest))
    }
}

/// A declaration of ports (IEEE 1364-2005, A.2.1.2).
#[tactic(auto, unfolding(vl_rules::specs::Declarations::ports_item))]
pub fn ports_item<'t, 'f>(reader: &Reader, tokens: &'t [Token<'f>]) -> Read<'t, 'f, PortItem<'f>>
    ensures { Gives (λ x. (x.0, x.1.now)) result (reads (read_to reader.now.depth) declared.ports_item tokens.now) }
{
    let (dir, rest) = direction(reader, tokens)?;
    let (net, rest) = maybe(&NetWords { reader: *reader }, rest)?;
    let (signed, rest) = reader.flag(rest, Word::Signed)?;
    let (range, rest) = maybe(&Ranges { reader: *reader }, rest)?;
    let (names, rest) = list(reader.alloc, &Names { reader: *reader }, rest)?;
    let (_, rest) = expect(rest, Word::Semicolon)?;
    let item = PortItem {
        dir,
        net,
        signed,
        range,
        names,
    };
    Ok((item, rest))
}

/// A declaration of nets or variables (A.2.1.3).
#[tactic(auto, unfolding(vl_rules::specs::Declarations::nets_item))]
pub fn nets_item<'t, 'f>(reader: &Reader, tokens: &'t [Token<'f>]) -> Read<'t, 'f, NetItem<'f>>
    ensures { Gives (λ x. (x.0, x.1.now)) result (reads (read_to reader.now.depth) declared.nets_item tokens.now) }
{
    let (net, rest) = NetWords { reader: *reader }.read(tokens)?;
    let (signed, rest) = reader.flag(rest, Word::Signed)?;
    let (range, rest) = maybe(&Ranges { reader: *reader }, rest)?;
    let (vars, rest) = list(reader.alloc, &Vars { reader: *reader }, rest)?;
    let (_, rest) = expect(rest, Word::Semicolon)?;
    let item = NetItem {
        net,
        signed,
        range,
        vars,
    };
    Ok((item, rest))
}

/// A declaration of constants (A.2.1.1).
#[tactic(auto, unfolding(vl_rules::specs::Declarations::constants_item))]
pub fn constants_item<'t, 'f>(
    reader: &Reader,
    tokens: &'t [Token<'f>],
) -> Read<'t, 'f, ParameterItem<'f>>
    ensures { Gives (λ x. (x.0, x.1.now)) result (reads (read_to reader.now.depth) declared.constants_item tokens.now) }
{
    let (word, rest) = constant_word(reader, tokens)?;
    let (ptype, rest) = ptype(reader, rest)?;
    let (values, rest) = list(reader.alloc, &ConstantValues { reader: *reader }, rest)?;
    let (_, rest) = expect(rest, Word::Semicolon)?;
    let item = ParameterItem {
        word,
        ptype,
        values,
    };
    Ok((item, rest))
}
