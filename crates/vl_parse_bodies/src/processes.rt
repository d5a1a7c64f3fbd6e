ghost use Rattle.std.specs.Prelude.{◌≡◌};
ghost use Rattle.vl_rules.specs.Functions as functions;
ghost use Rattle.vl_rules.specs.Items as items;
ghost use Rattle.vl_rules.specs.Form.{reads};
ghost use Rattle.vl_rules.specs.Modules.{read_to};
ghost use Rattle.vl_expr.specs.Gives.{Gives};

use sqlite_items::Boxed;
use vl_expr::{Read, expect};
use vl_parse_declarations::ptype;
use vl_parse_parts::Reader;
use vl_parse_plain_items::{function_declarations, function_inputs};
use vl_parse_statements::nested_statement;
use vl_parse_writes::event_control;
use vl_tree::{Function, Process, Stmt, Token, Word};

/// A process (A.6.2).
#[tactic(auto, unfolding(vl_rules::specs::Items::process))]
pub fn process<'t, 'f>(reader: &Reader, tokens: &'t [Token<'f>]) -> Read<'t, 'f, Process<'f>>
    ensures { Gives (λ x. (x.0, x.1.now)) result (reads (read_to reader.now.depth) items.process tokens.now) }
{
    let (_, rest) = expect(tokens, Word::Always)?;
    let (_, rest) = expect(rest, Word::At)?;
    let (event, rest) = event_control(reader, rest)?;
    let (body, rest) = nested_statement(reader.alloc, rest, reader.depth)?;
    Ok((Process { event, body }, rest))
}

/// What is written at the start (A.6.2).
#[tactic(auto, unfolding(vl_rules::specs::Items::start_item))]
pub fn start_item<'t, 'f>(reader: &Reader, tokens: &'t [Token<'f>]) -> Read<'t, 'f, Stmt<'f>>
    ensures { Gives (λ x. (x.0, x.1.now)) result (reads (read_to reader.now.depth) items.start_item tokens.now) }
{
    let (_, rest) = expect(tokens, Word::Initial)?;
    let (body, rest) = nested_statement(reader.alloc, rest, reader.depth)?;
    Ok((body, rest))
}

/// A function (A.2.6).
#[tactic(auto, unfolding(vl_rules::specs::Functions::function))]
pub fn function<'t, 'f>(reader: &Reader, tokens: &'t [Token<'f>]) -> Read<'t, 'f, Function<'f>>
    ensures { Gives (λ x. (x.0, x.1.now)) result (reads (read_to reader.now.depth) functions.function tokens.now) }
{
    let (_, rest) = expect(tokens, Word::Function)?;
    let (automatic, rest) = reader.flag(rest, Word::Automatic)?;
    let (result_type, rest) = ptype(reader, rest)?;
    let (name, rest) = expect(rest, Word::Name)?;
    let (inputs, rest) = function_inputs(reader, rest)?;
    let (_, rest) = expect(rest, Word::Semicolon)?;
    let (declarations, rest) = function_declarations(reader, rest)?;
    let (body, rest) = nested_statement(reader.alloc, rest, reader.depth)?;
    let (_, rest) = expect(rest, Word::EndFunction)?;
    let body = Boxed::new(reader.alloc, body)?;
    let function = Function {
        automatic,
        result_type,
        name,
        inputs,
        declarations,
        body,
    };
    Ok((function, rest))
}
