ghost use Rattle.std.specs.Prelude.{◌≡◌, IfOk, []};
ghost use Rattle.vl_tree.specs.declared.modules.Module as spec_module;
ghost use Rattle.vl_rules.specs.Form.{reads};
ghost use Rattle.vl_rules.specs.Modules as modules;
ghost use Rattle.vl_rules.specs.Modules.{Stands, read_to};
ghost use Rattle.vl_expr.specs.Gives.{Gives};

use std::alloc::Global;
use vl_expr::{Read, ReadError, expect};
use vl_parse_declarations::{parameter_part, port_part};
use vl_parse_items::module_items;
use vl_parse_parts::Reader;
use vl_tree::{Module, Token, Word};

/// A module (IEEE 1364-2005, A.1.2).
#[tactic(auto, unfolding(vl_rules::specs::Modules::module_form, vl_rules::specs::Modules::module_text))]
fn module<'t, 'f>(reader: &Reader, tokens: &'t [Token<'f>]) -> Read<'t, 'f, Module<'f>>
    ensures { Gives (λ x. (x.0, x.1.now)) result (reads (read_to reader.now.depth) modules.module_form tokens.now) }
{
    let (_, rest) = expect(tokens, Word::Module)?;
    let (name, rest) = expect(rest, Word::Name)?;
    let (parameters, rest) = parameter_part(reader, rest)?;
    let (ports, rest) = port_part(reader, rest)?;
    let (_, rest) = expect(rest, Word::Semicolon)?;
    let (items, rest) = module_items(reader, rest)?;
    let (_, rest) = expect(rest, Word::EndModule)?;
    let module = Module {
        name,
        parameters,
        ports,
        items,
    };
    Ok((module, rest))
}

/// The module that spells all of the tokens, to their end; there is one at most. Refuses where none does, or for want of memory. Linear in the tokens.
pub fn whole_module<'f>(alloc: Global, tokens: &[Token<'f>]) -> Result<Module<'f>, ReadError>
    ensures found { IfOk result (λ m. Stands modules.module_form m tokens.now []) }
    ensures none { result ≡ Err ReadError.Refused → (m : spec_module.Module) → Stands modules.module_form m tokens.now [] → ⊥ }
{
    let reader = Reader {
        alloc,
        depth: tokens.len(),
    };
    match module(&reader, tokens) {
        Ok((found, rest)) => {
            if rest.len() == 0 {
                Ok(found)
            } else {
                Err(ReadError::Refused)
            }
        }
        Err(error) => Err(error),
    }
}
