ghost use Rattle.std.specs.Prelude.{◌≡◌};
ghost use Rattle.vl_rules.specs.Items as items;
ghost use Rattle.vl_rules.specs.Form.{starts, reads};
ghost use Rattle.vl_rules.specs.Modules.{read_to};
ghost use Rattle.vl_expr.specs.Gives.{Gives};

use crate::processes::{function, process, start_item};
use vl_expr::Read;
use vl_parse_declarations::{constants_item, nets_item, ports_item};
use vl_parse_instances::{begins_gates, gates_item, instances_item};
use vl_parse_parts::{Reader, is_next};
use vl_parse_plain_items::{assigns_item, integers_item, loop_names_item};
use vl_tree::{Item, Token, Word, same_word};

/// Whether a declaration begins with this word.
#[tactic(auto, unfolding(vl_rules::specs::Items::declared_item, vl_rules::specs::Items::integers_item, vl_rules::specs::Items::loop_names_item, vl_rules::specs::Declarations::ports_item, vl_rules::specs::Declarations::direction, vl_rules::specs::Declarations::nets_item, vl_rules::specs::Declarations::net_word, vl_rules::specs::Declarations::constants_item, vl_rules::specs::Declarations::constant_word))]
pub fn begins_declared(word: Word) -> bool
    ensures { result ≡ starts items.declared_item word }
{
    (same_word(word, Word::Input) || same_word(word, Word::Output))
        || ((same_word(word, Word::Wire) || same_word(word, Word::Reg))
            || (same_word(word, Word::Integer)
                || (same_word(word, Word::GenVar)
                    || (same_word(word, Word::Parameter) || same_word(word, Word::LocalParam)))))
}

/// Whether what is written, or a function, begins with this word.
#[tactic(auto, unfolding(vl_rules::specs::Items::written_item, vl_rules::specs::Items::assigns_item, vl_rules::specs::Items::process, vl_rules::specs::Items::start_item, vl_rules::specs::Functions::function))]
pub fn begins_written(word: Word) -> bool
    ensures { result ≡ starts items.written_item word }
{
    same_word(word, Word::Assign)
        || (same_word(word, Word::Always)
            || (same_word(word, Word::Initial) || same_word(word, Word::Function)))
}

/// Whether instances or gates begin with this word.
#[tactic(auto, unfolding(vl_rules::specs::Items::placed_item, vl_rules::specs::Instances::instances_item))]
pub fn begins_placed(word: Word) -> bool
    ensures { result ≡ starts items.placed_item word }
{
    same_word(word, Word::Name) || begins_gates(word)
}

/// A declaration in a module.
#[tactic(auto, unfolding(vl_rules::specs::Items::declared_item, vl_rules::specs::Declarations::ports_item, vl_rules::specs::Declarations::direction, vl_rules::specs::Declarations::nets_item, vl_rules::specs::Declarations::net_word, vl_rules::specs::Items::integers_item, vl_rules::specs::Items::loop_names_item))]
#[inline(never)]
pub fn declared_item<'t, 'f>(reader: &Reader, tokens: &'t [Token<'f>]) -> Read<'t, 'f, Item<'f>>
    ensures { Gives (λ x. (x.0, x.1.now)) result (reads (read_to reader.now.depth) items.declared_item tokens.now) }
{
    if is_next(tokens, Word::Input) || is_next(tokens, Word::Output) {
        let (found, rest) = ports_item(reader, tokens)?;
        Ok((Item::Port(found), rest))
    } else if is_next(tokens, Word::Wire) || is_next(tokens, Word::Reg) {
        let (found, rest) = nets_item(reader, tokens)?;
        Ok((Item::Net(found), rest))
    } else if is_next(tokens, Word::Integer) {
        let (found, rest) = integers_item(reader, tokens)?;
        Ok((Item::Integer(found), rest))
    } else if is_next(tokens, Word::GenVar) {
        let (found, rest) = loop_names_item(reader, tokens)?;
        Ok((Item::GenVar(found), rest))
    } else {
        let (found, rest) = constants_item(reader, tokens)?;
        Ok((Item::Parameter(found), rest))
    }
}

/// An `assign`, a process or a function.
#[tactic(auto, unfolding(vl_rules::specs::Items::written_item, vl_rules::specs::Items::assigns_item, vl_rules::specs::Items::process, vl_rules::specs::Items::start_item))]
#[inline(never)]
pub fn written_item<'t, 'f>(reader: &Reader, tokens: &'t [Token<'f>]) -> Read<'t, 'f, Item<'f>>
    ensures { Gives (λ x. (x.0, x.1.now)) result (reads (read_to reader.now.depth) items.written_item tokens.now) }
{
    if is_next(tokens, Word::Assign) {
        let (found, rest) = assigns_item(reader, tokens)?;
        Ok((Item::Assign(found), rest))
    } else if is_next(tokens, Word::Always) {
        let (found, rest) = process(reader, tokens)?;
        Ok((Item::Always(found), rest))
    } else if is_next(tokens, Word::Initial) {
        let (found, rest) = start_item(reader, tokens)?;
        Ok((Item::Initial(found), rest))
    } else {
        let (found, rest) = function(reader, tokens)?;
        Ok((Item::Function(found), rest))
    }
}

/// Instances or gates.
#[tactic(auto, unfolding(vl_rules::specs::Items::placed_item, vl_rules::specs::Instances::instances_item))]
#[inline(never)]
pub fn placed_item<'t, 'f>(reader: &Reader, tokens: &'t [Token<'f>]) -> Read<'t, 'f, Item<'f>>
    ensures { Gives (λ x. (x.0, x.1.now)) result (reads (read_to reader.now.depth) items.placed_item tokens.now) }
{
    if is_next(tokens, Word::Name) {
        let (found, rest) = instances_item(reader, tokens)?;
        Ok((Item::Instances(found), rest))
    } else {
        let (found, rest) = gates_item(reader, tokens)?;
        Ok((Item::Gates(found), rest))
    }
}
