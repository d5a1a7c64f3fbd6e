//! Whether a source of the grammar spells the tokens of all files (IEEE 1364-2005, annex A, the part that this tool takes).
#![tactic(auto)]

ghost use Rattle.std.specs.Prelude.{IfErr, IfOk, map};
ghost use Rattle.vl_lex.specs.Lexed.{view};
ghost use Rattle.grammar_views.specs.Views.{IsSpelled};
ghost use Rattle.vl_syntax.specs.Refused.{IsRefused};

use std::alloc::Global;
use vl_parse::parse_files;
use vl_tree::{Stop, TokenList};

/// Passes where a source spells the tokens, by what they say. Refuses with the fault of syntax exactly where none does: the tokens are cut behind each `endmodule`, and
/// the fault stands at the first token of the first part that no module spells; and with want of memory. Linear in the tokens.
pub fn check_syntax(alloc: Global, tokens: &TokenList<'_>) -> Result<(), Stop>
    ensures spelled { IfOk result (λ _. IsSpelled (map view tokens.now)) }
    ensures refused { IfErr result (λ stop. IsRefused (map view tokens.now) stop) }
{
    match parse_files(alloc, tokens) {
        Ok(_source) => Ok(()),
        Err(stop) => Err(stop),
    }
}
