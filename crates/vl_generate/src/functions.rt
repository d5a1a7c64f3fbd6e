ghost use Rattle.std.specs.Prelude.{◌≡◌, [], IfOk};
ghost use Rattle.vl_tree.specs.Outcomes.{Gives, GivesSeen};
ghost use Rattle.vl_generate.specs.Functions as spec;

use crate::shade::Shaded;
use crate::vectors::{Vector, entry, integer_bits, one_bit, vector_of};
use bits_core::{Items, NoMemory, NumberList};
use std::alloc::Global;
use vl_acts::own_names;
use vl_const::Constants;
use vl_items::{copied, plain_entry};
use vl_size::{NameKind, SizeEntry};
use vl_tree::{
    Fdecl, Function, FunctionInput, FunctionInputList, FunctionWord, Halt, Ptype, Token, token_name,
};

/// The bits and the sign of a result.
#[derive(Clone, Copy)]
struct Returned {
    bits: Vector,
    signed: bool,
}

fn result_of<S: Constants>(
    ptype: &Option<Ptype>,
    alloc: Global,
    scope: &S,
) -> Result<Returned, Halt>
    ensures { GivesSeen (λ r. (r.bits, r.signed)) result (spec.result (S.meaning scope.now) ptype.now) }
{
    match ptype {
        None => Ok(Returned {
            bits: one_bit(),
            signed: false,
        }),
        Some(Ptype::Integer) => Ok(Returned {
            bits: integer_bits(),
            signed: true,
        }),
        Some(Ptype::Vector { signed, range }) => Ok(Returned {
            bits: vector_of(range, alloc, scope)?,
            signed: *signed,
        }),
    }
}

fn head_inputs<S: Constants>(
    inputs: &[FunctionInput],
    alloc: Global,
    scope: &S,
) -> Result<NumberList, Halt>
    ensures { Gives result (spec.head_inputs (S.meaning scope.now) [] inputs.now) }
{
    let mut all = Items::new(alloc);
    for input in inputs {
        let bits = vector_of(&input.range, alloc, scope)?;
        all.push(bits.length)?;
    }
    Ok(all)
}

fn listed_inputs<S: Constants>(
    inputs: &Option<FunctionInputList>,
    alloc: Global,
    scope: &S,
) -> Result<NumberList, Halt>
    ensures { Gives result (spec.listed_inputs (S.meaning scope.now) inputs.now) }
{
    match inputs {
        None => Ok(Items::new(alloc)),
        Some(inputs) => head_inputs(inputs.as_slice(), alloc, scope),
    }
}

fn each_of(length: u32, before: NumberList, names: &[Token]) -> Result<NumberList, NoMemory>
    ensures { IfOk result (λ r. r ≡ spec.each_of length before names.now) }
{
    let mut all = before;
    for turn in 0..names.len() {
        all.push(length)?;
    }
    Ok(all)
}

fn with_declaration<S: Constants>(
    declaration: &Fdecl,
    alloc: Global,
    scope: &S,
    before: NumberList,
) -> Result<NumberList, Halt>
    ensures { Gives result (spec.with_declaration (S.meaning scope.now) before declaration.now) }
{
    match declaration {
        Fdecl::Vector {
            word: FunctionWord::Input,
            range,
            names,
            ..
        } => {
            let bits = vector_of(range, alloc, scope)?;
            Ok(each_of(bits.length, before, names.as_slice())?)
        }
        Fdecl::Vector {
            word: FunctionWord::Reg,
            ..
        } => Ok(before),
        Fdecl::Integer(_) => Ok(before),
    }
}

fn declared_inputs<S: Constants>(
    declarations: &[Fdecl],
    alloc: Global,
    scope: &S,
    before: NumberList,
) -> Result<NumberList, Halt>
    ensures { Gives result (spec.declared_inputs (S.meaning scope.now) before declarations.now) }
{
    let mut all = before;
    for declaration in declarations {
        all = with_declaration(declaration, alloc, scope, all)?;
    }
    Ok(all)
}

fn entry_inside<S: Constants>(
    function: &Function,
    alloc: Global,
    scope: &S,
) -> Result<SizeEntry, Halt>
    ensures { Gives result (spec.entry_inside (S.meaning scope.now) function.now) }
{
    let result = result_of(&function.result_type, alloc, scope)?;
    let inputs = listed_inputs(&function.inputs, alloc, scope)?;
    let inputs = declared_inputs(function.declarations.as_slice(), alloc, scope, inputs)?;
    let name = copied(alloc, token_name(&function.name))?;
    Ok(entry(NameKind::Function, name, result.bits, result.signed, inputs))
}

/// What a function's name stands for: its length and sign, and the lengths of its inputs in order. The ranges of its locals are left
/// for later.
pub fn function_entry<S: Constants>(
    function: &Function,
    alloc: Global,
    scope: &S,
) -> Result<SizeEntry, Halt>
    ensures { Gives result (spec.function_entry (S.meaning scope.now) function.now) }
{
    let names = own_names(function, alloc)?;
    let plain = plain_entry(alloc, NameKind::Signal, &[])?;
    let inside = Shaded {
        scope,
        names: &names,
        entry: &plain,
    };
    entry_inside(function, alloc, &inside)
}
