ghost use Rattle.std.specs.Prelude.{◌≡◌, ◌∷◌, OnOk};
ghost use Rattle.vl_lex.specs.Calls as spec;

use bits_core::NoMemory;
use vl_tree::TokenList;

/// A macro whose body is being expanded: how many macros may still nest in it, and the token at which its body goes on. It is not defined inside its body.
#[derive(Drop)]
pub struct Call<'f> {
    pub levels: usize,
    pub name: &'f [u8],
    pub body: TokenList<'f>,
    pub at: usize,
}

/// A body is opened inside the others.
#[tactic(auto, using(crate::proofs::Unwound::calls_in))]
pub fn open<'f>(calls: &mut Vec<Call<'f>>, call: Call<'f>) -> Result<(), NoMemory>
    ensures { OnOk result (spec.calls_view calls.new.items ≡ spec.call_view call.entry ∷ spec.calls_view calls.old.items) }
{
    calls.push(call)?;
    Ok(())
}
