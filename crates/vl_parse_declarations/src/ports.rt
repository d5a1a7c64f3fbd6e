ghost use Rattle.std.specs.Prelude.{◌≡◌};
ghost use Rattle.vl_rules.specs.Ports as ports;
ghost use Rattle.vl_rules.specs.Shapes as shape;
ghost use Rattle.vl_rules.specs.Form.{reads};
ghost use Rattle.vl_rules.specs.Modules.{read_to};
ghost use Rattle.vl_expr.specs.Gives.{Gives};

use crate::declarations::{NetWords, Ranges, Vars, direction, ptype};
use bits_core::Items;
use std::alloc::Global;
use vl_expr::{Read, ReadError, expect};
use vl_parse_parts::{
    AfterComma, AfterEquals, Names, Part, Reader, is_next, list, maybe, one_and_more,
};
use vl_tree::{Ansi, AnsiHead, Pdecl, Ports, Token, Word, next_word, same_word};

/// Parameters that have the word `parameter`.
#[derive(Clone, Copy)]
pub struct FirstParameters {
    pub reader: Reader,
}

impl<'f> Part<'f> for FirstParameters {
    ghost use Rattle.std.specs.Prelude.{◌≡◌};
    ghost use Rattle.vl_rules.specs.Ports as ports;
    ghost use Rattle.vl_rules.specs.Form.{reads, starts};
    ghost use Rattle.vl_rules.specs.Modules.{read_to};
    ghost use Rattle.vl_expr.specs.Gives.{Gives};

    type Tree = Pdecl<'f>;

    ghost ready = { λ s. Unit {0} };

    ghost begin = { λ s. starts ports.first_parameter };

    ghost parser = { λ s. reads (read_to s.reader.depth) ports.first_parameter };

    #[tactic(auto, unfolding(vl_rules::specs::Ports::first_parameter))]
    fn starts_with(&self, word: Word) -> bool
        ensures { result ≡ starts ports.first_parameter word }
    {
        same_word(word, Word::Parameter)
    }

    #[tactic(auto, unfolding(vl_rules::specs::Ports::first_parameter))]
    fn read<'t>(&self, tokens: &'t [Token<'f>]) -> Read<'t, 'f, Self::Tree>
        ensures { Gives (λ x. (x.0, x.1.now)) result (reads (read_to self.now.reader.depth) ports.first_parameter tokens.now) }
    {
        let (_, rest) = expect(tokens, Word::Parameter)?;
        let (ptype, rest) = ptype(&self.reader, rest)?;
        let (name, rest) = expect(rest, Word::Name)?;
        let after = AfterEquals {
            reader: self.reader,
        };
        let (value, rest) = after.read(rest)?;
        let parameter = Pdecl {
            word: Some(ptype),
            name,
            value,
        };
        Ok((parameter, rest))
    }
}

/// Parameters behind the first one.
#[derive(Clone, Copy)]
pub struct OtherParameters {
    pub reader: Reader,
}

impl<'f> Part<'f> for OtherParameters {
    ghost use Rattle.std.specs.Prelude.{◌≡◌};
    ghost use Rattle.vl_rules.specs.Ports as ports;
    ghost use Rattle.vl_rules.specs.Form.{reads, starts};
    ghost use Rattle.vl_rules.specs.Modules.{read_to};
    ghost use Rattle.vl_expr.specs.Gives.{Gives};

    type Tree = Pdecl<'f>;

    ghost ready = { λ s. Unit {0} };

    ghost begin = { λ s. starts ports.other_parameter };

    ghost parser = { λ s. reads (read_to s.reader.depth) ports.other_parameter };

    #[tactic(auto, unfolding(vl_rules::specs::Ports::other_parameter, vl_rules::specs::Ports::first_parameter, vl_rules::specs::Ports::next_parameter))]
    fn starts_with(&self, word: Word) -> bool
        ensures { result ≡ starts ports.other_parameter word }
    {
        same_word(word, Word::Parameter) || same_word(word, Word::Name)
    }

    #[tactic(auto, unfolding(vl_rules::specs::Ports::other_parameter, vl_rules::specs::Ports::first_parameter))]
    fn read<'t>(&self, tokens: &'t [Token<'f>]) -> Read<'t, 'f, Self::Tree>
        ensures { Gives (λ x. (x.0, x.1.now)) result (reads (read_to self.now.reader.depth) ports.other_parameter tokens.now) }
    {
        if is_next(tokens, Word::Parameter) {
            let first = FirstParameters {
                reader: self.reader,
            };
            first.read(tokens)
        } else {
            next_parameter(&self.reader, tokens)
        }
    }
}

/// Ports that have a direction.
#[derive(Clone, Copy)]
pub struct FirstPorts {
    pub reader: Reader,
}

impl<'f> Part<'f> for FirstPorts {
    ghost use Rattle.std.specs.Prelude.{◌≡◌};
    ghost use Rattle.vl_rules.specs.Ports as ports;
    ghost use Rattle.vl_rules.specs.Form.{reads, starts};
    ghost use Rattle.vl_rules.specs.Modules.{read_to};
    ghost use Rattle.vl_expr.specs.Gives.{Gives};

    type Tree = Ansi<'f>;

    ghost ready = { λ s. Unit {0} };

    ghost begin = { λ s. starts ports.first_port };

    ghost parser = { λ s. reads (read_to s.reader.depth) ports.first_port };

    #[tactic(auto, unfolding(vl_rules::specs::Ports::first_port, vl_rules::specs::Ports::port_head, vl_rules::specs::Declarations::direction))]
    fn starts_with(&self, word: Word) -> bool
        ensures { result ≡ starts ports.first_port word }
    {
        same_word(word, Word::Input) || same_word(word, Word::Output)
    }

    #[tactic(auto, unfolding(vl_rules::specs::Ports::first_port))]
    fn read<'t>(&self, tokens: &'t [Token<'f>]) -> Read<'t, 'f, Self::Tree>
        ensures { Gives (λ x. (x.0, x.1.now)) result (reads (read_to self.now.reader.depth) ports.first_port tokens.now) }
    {
        let (head, rest) = port_head(&self.reader, tokens)?;
        let vars = Vars {
            reader: self.reader,
        };
        let (var, rest) = vars.read(rest)?;
        let port = Ansi {
            head: Some(head),
            var,
        };
        Ok((port, rest))
    }
}

/// Ports behind the first one; without a direction, the head of the port before goes on.
#[derive(Clone, Copy)]
pub struct OtherPorts {
    pub reader: Reader,
}

impl<'f> Part<'f> for OtherPorts {
    ghost use Rattle.std.specs.Prelude.{◌≡◌};
    ghost use Rattle.vl_rules.specs.Ports as ports;
    ghost use Rattle.vl_rules.specs.Form.{reads, starts};
    ghost use Rattle.vl_rules.specs.Modules.{read_to};
    ghost use Rattle.vl_expr.specs.Gives.{Gives};

    type Tree = Ansi<'f>;

    ghost ready = { λ s. Unit {0} };

    ghost begin = { λ s. starts ports.other_port };

    ghost parser = { λ s. reads (read_to s.reader.depth) ports.other_port };

    #[tactic(auto, unfolding(vl_rules::specs::Ports::other_port, vl_rules::specs::Ports::first_port, vl_rules::specs::Ports::next_port, vl_rules::specs::Declarations::var, vl_rules::specs::Ports::port_head, vl_rules::specs::Declarations::direction))]
    fn starts_with(&self, word: Word) -> bool
        ensures { result ≡ starts ports.other_port word }
    {
        same_word(word, Word::Input) || same_word(word, Word::Output) || same_word(word, Word::Name)
    }

    #[tactic(auto, unfolding(vl_rules::specs::Ports::other_port))]
    fn read<'t>(&self, tokens: &'t [Token<'f>]) -> Read<'t, 'f, Self::Tree>
        ensures { Gives (λ x. (x.0, x.1.now)) result (reads (read_to self.now.reader.depth) ports.other_port tokens.now) }
    {
        let first = FirstPorts {
            reader: self.reader,
        };
        if first.starts_with(next_word(tokens)) {
            first.read(tokens)
        } else {
            next_port(&self.reader, tokens)
        }
    }
}

#[tactic(auto, unfolding(vl_rules::specs::Ports::next_parameter))]
fn next_parameter<'t, 'f>(reader: &Reader, tokens: &'t [Token<'f>]) -> Read<'t, 'f, Pdecl<'f>>
    ensures { Gives (λ x. (x.0, x.1.now)) result (reads (read_to reader.now.depth) ports.next_parameter tokens.now) }
{
    let (name, rest) = expect(tokens, Word::Name)?;
    let (value, rest) = AfterEquals { reader: *reader }.read(rest)?;
    let parameter = Pdecl {
        word: None,
        name,
        value,
    };
    Ok((parameter, rest))
}

#[tactic(auto, unfolding(vl_rules::specs::Ports::parameters))]
fn parameters<'t, 'f>(reader: &Reader, tokens: &'t [Token<'f>]) -> Read<'t, 'f, Items<Pdecl<'f>>>
    ensures { Gives (λ x. (x.0, x.1.now)) result (reads (read_to reader.now.depth) ports.parameters tokens.now) }
{
    let first = FirstParameters { reader: *reader };
    let others = AfterComma {
        part: OtherParameters { reader: *reader },
    };
    one_and_more(reader.alloc, &first, &others, tokens)
}

/// The parameters in a module's head (A.1.3), where they stand.
#[tactic(auto, unfolding(vl_rules::specs::Ports::parameter_part))]
pub fn parameter_part<'t, 'f>(
    reader: &Reader,
    tokens: &'t [Token<'f>],
) -> Read<'t, 'f, Option<Items<Pdecl<'f>>>>
    ensures { Gives (λ x. (x.0, x.1.now)) result (reads (read_to reader.now.depth) ports.parameter_part tokens.now) }
{
    if is_next(tokens, Word::Hash) {
        let (_, rest) = expect(tokens, Word::Hash)?;
        let (_, rest) = expect(rest, Word::LeftParen)?;
        let (parameters, rest) = parameters(reader, rest)?;
        let (_, rest) = expect(rest, Word::RightParen)?;
        Ok((Some(parameters), rest))
    } else {
        Ok((None, tokens))
    }
}

#[tactic(auto, unfolding(vl_rules::specs::Ports::port_head))]
fn port_head<'t, 'f>(reader: &Reader, tokens: &'t [Token<'f>]) -> Read<'t, 'f, AnsiHead<'f>>
    ensures { Gives (λ x. (x.0, x.1.now)) result (reads (read_to reader.now.depth) ports.port_head tokens.now) }
{
    let (dir, rest) = direction(reader, tokens)?;
    let (net, rest) = maybe(&NetWords { reader: *reader }, rest)?;
    let (signed, rest) = reader.flag(rest, Word::Signed)?;
    let (range, rest) = maybe(&Ranges { reader: *reader }, rest)?;
    let head = AnsiHead {
        dir,
        net,
        signed,
        range,
    };
    Ok((head, rest))
}

#[tactic(auto, unfolding(vl_rules::specs::Ports::next_port))]
fn next_port<'t, 'f>(reader: &Reader, tokens: &'t [Token<'f>]) -> Read<'t, 'f, Ansi<'f>>
    ensures { Gives (λ x. (x.0, x.1.now)) result (reads (read_to reader.now.depth) ports.next_port tokens.now) }
{
    let (var, rest) = Vars { reader: *reader }.read(tokens)?;
    Ok((Ansi { head: None, var }, rest))
}

#[tactic(auto, unfolding(vl_rules::specs::Ports::declared_ports))]
fn declared_ports<'t, 'f>(reader: &Reader, tokens: &'t [Token<'f>]) -> Read<'t, 'f, Items<Ansi<'f>>>
    ensures { Gives (λ x. (x.0, x.1.now)) result (reads (read_to reader.now.depth) ports.declared_ports tokens.now) }
{
    let first = FirstPorts { reader: *reader };
    let others = AfterComma {
        part: OtherPorts { reader: *reader },
    };
    one_and_more(reader.alloc, &first, &others, tokens)
}

#[tactic(auto, unfolding(vl_rules::specs::Ports::port_list, vl_rules::specs::Ports::declared_ports, vl_rules::specs::Ports::first_port, vl_rules::specs::Ports::port_head, vl_rules::specs::Declarations::direction))]
fn port_list<'t, 'f>(reader: &Reader, tokens: &'t [Token<'f>]) -> Read<'t, 'f, Ports<'f>>
    ensures { Gives (λ x. (x.0, x.1.now)) result (reads (read_to reader.now.depth) ports.port_list tokens.now) }
{
    if (FirstPorts { reader: *reader }).starts_with(next_word(tokens)) {
        let (ports, rest) = declared_ports(reader, tokens)?;
        Ok((Ports::Declared(ports), rest))
    } else {
        let (names, rest) = list(reader.alloc, &Names { reader: *reader }, tokens)?;
        Ok((Ports::Names(names), rest))
    }
}

#[tactic(auto, unfolding(vl_rules::specs::Ports::port_list, vl_rules::specs::Ports::declared_ports, vl_rules::specs::Ports::first_port, vl_rules::specs::Ports::port_head, vl_rules::specs::Declarations::direction))]
fn maybe_ports<'t, 'f>(reader: &Reader, tokens: &'t [Token<'f>]) -> Read<'t, 'f, Option<Ports<'f>>>
    ensures { Gives (λ x. (x.0, x.1.now)) result (reads (read_to reader.now.depth) (shape.maybe ports.port_list) tokens.now) }
{
    let declared = (FirstPorts { reader: *reader }).starts_with(next_word(tokens));
    if declared || is_next(tokens, Word::Name) {
        let (ports, rest) = port_list(reader, tokens)?;
        Ok((Some(ports), rest))
    } else {
        Ok((None, tokens))
    }
}

/// The ports in a module's head (A.1.3), where its brackets stand.
#[tactic(auto, unfolding(vl_rules::specs::Ports::port_part))]
pub fn port_part<'t, 'f>(
    reader: &Reader,
    tokens: &'t [Token<'f>],
) -> Read<'t, 'f, Option<Option<Ports<'f>>>>
    ensures { Gives (λ x. (x.0, x.1.now)) result (reads (read_to reader.now.depth) ports.port_part tokens.now) }
{
    if is_next(tokens, Word::LeftParen) {
        let (_, rest) = expect(tokens, Word::LeftParen)?;
        let (ports, rest) = maybe_ports(reader, rest)?;
        let (_, rest) = expect(rest, Word::RightParen)?;
        Ok((Some(ports), rest))
    } else {
        Ok((None, tokens))
    }
}
