ghost use Rattle.std.specs.Prelude.{◌≡◌, IfOk};
ghost use Rattle.vl_names.specs.Names.{listed};
ghost use Rattle.vl_size.specs.Terms.{name_at};
ghost use Rattle.vl_items.specs.Declarations.{added};
ghost use Rattle.vl_acts.specs.Heads as spec;

use bits_core::NoMemory;
use std::alloc::Global;
use vl_names::Index;
use vl_tree::{Fdecl, Function, FunctionInput, FunctionInputList, Token, token_name};

fn with_name<'f>(before: Index<'f>, token: &Token<'f>) -> Result<Index<'f>, NoMemory>
    ensures { IfOk result (λ r. listed r ≡ added (listed before.entry) (name_at token.now)) }
{
    let mut names = before;
    names.add(token_name(token))?;
    Ok(names)
}

fn token_names<'f>(before: Index<'f>, tokens: &[Token<'f>]) -> Result<Index<'f>, NoMemory>
    ensures { IfOk result (λ r. listed r ≡ spec.token_names (listed before.entry) tokens.now) }
{
    let mut all = before;
    for token in tokens {
        all = with_name(all, token)?;
    }
    Ok(all)
}

fn fdecl_names<'f>(declarations: &[Fdecl<'f>], before: Index<'f>) -> Result<Index<'f>, NoMemory>
    ensures { IfOk result (λ r. listed r ≡ spec.fdecl_names (listed before.entry) declarations.now) }
{
    let mut all = before;
    for declaration in declarations {
        all = match declaration {
            Fdecl::Vector { names, .. } => token_names(all, names.as_slice())?,
            Fdecl::Integer(names) => token_names(all, names.as_slice())?,
        };
    }
    Ok(all)
}

fn input_names<'f>(inputs: &[FunctionInput<'f>], before: Index<'f>) -> Result<Index<'f>, NoMemory>
    ensures { IfOk result (λ r. listed r ≡ spec.input_names (listed before.entry) inputs.now) }
{
    let mut all = before;
    for input in inputs {
        all = with_name(all, &input.name)?;
    }
    Ok(all)
}

fn head_names<'f>(
    inputs: &Option<FunctionInputList<'f>>,
    before: Index<'f>,
) -> Result<Index<'f>, NoMemory>
    ensures { IfOk result (λ r. listed r ≡ spec.head_names (listed before.entry) inputs.now) }
{
    match inputs {
        None => Ok(before),
        Some(inputs) => input_names(inputs.as_slice(), before),
    }
}

/// The names of a function, each once: its result, its inputs and its locals. Linear in its head and its declarations.
pub fn own_names<'f>(function: &Function<'f>, alloc: Global) -> Result<Index<'f>, NoMemory>
    ensures { IfOk result (λ r. listed r ≡ spec.own_names function.now) }
{
    let all = with_name(Index::new(alloc), &function.name)?;
    let all = head_names(&function.inputs, all)?;
    fdecl_names(function.declarations.as_slice(), all)
}

/// The inputs and the locals of a function, each once. Linear in its head and its declarations.
pub fn inner_names<'f>(function: &Function<'f>, alloc: Global) -> Result<Index<'f>, NoMemory>
    ensures { IfOk result (λ r. listed r ≡ spec.inner_names function.now) }
{
    let all = head_names(&function.inputs, Index::new(alloc))?;
    fdecl_names(function.declarations.as_slice(), all)
}
