ghost use Rattle.std.specs.Prelude.{◌≡◌, ◌<◌, ℕ, [], ◌∷◌, List, IfOk, IfSome};
ghost use Rattle.design_core.specs.Terms.{lengths};
ghost use Rattle.called_function.specs.Inside.{IsInside, IsWithin};
ghost use Rattle.formed_trees.specs.Trees.{IsMade};

use bits_core::{Items, NoMemory};
use design_core::{Binary, DBase, DExpr, DExprList, DFunction, DLocal, DLocalList, DNode, DStmt};
use formed_trees::{binary, both, constant, local, part, select, whole, write};
use sqlite_items::Boxed;
use std::alloc::Global;

// The operator on a local and a constant of 8 bits.
#[tactic(auto, using(crate::proofs::CallLaws::byte_at))]
fn with_constant(
    alloc: Global,
    op: Binary,
    number: u32,
    value: u128,
) -> Result<Option<DExpr>, NoMemory>
    requires { number < 3 }
    ensures { IfOk result (λ made. IfSome made (λ e. IsWithin e)) }
{
    let Some(byte) = local(number, 8, false) else {
        return Ok(None);
    };
    let Some(value) = constant(alloc, 8, value, false)? else {
        return Ok(None);
    };
    binary(alloc, op, byte, value)
}

// `local = input ^ 8'h0f`.
fn flip(alloc: Global) -> Result<Option<DStmt>, NoMemory>
    ensures { IfOk result (λ made. IfSome made (λ s. IsInside s)) }
{
    let Some(right) = with_constant(alloc, Binary::Xor, 1, 15)? else {
        return Ok(None);
    };
    let Some(left) = whole(DBase::Local(2), 8) else {
        return Ok(None);
    };
    Ok(write(left, 8, right, true))
}

// `result = local + 1`.
fn next(alloc: Global) -> Result<Option<DStmt>, NoMemory>
    ensures { IfOk result (λ made. IfSome made (λ s. IsInside s)) }
{
    let Some(right) = with_constant(alloc, Binary::Add, 2, 1)? else {
        return Ok(None);
    };
    let Some(left) = whole(DBase::Local(0), 8) else {
        return Ok(None);
    };
    Ok(write(left, 8, right, true))
}

// Bits of a local.
#[tactic(auto, using(crate::proofs::CallLaws::byte_at))]
fn bits_of(alloc: Global, number: u32, low: i64, length: u32) -> Result<Option<DExpr>, NoMemory>
    requires { number < 3 }
    ensures { IfOk result (λ made. IfSome made (λ e. IsWithin e)) }
{
    let Some(byte) = local(number, 8, false) else {
        return Ok(None);
    };
    select(alloc, byte, low, length)
}

// `result[3:0] = local[7:4]`.
fn half(alloc: Global) -> Result<Option<DStmt>, NoMemory>
    ensures { IfOk result (λ made. IfSome made (λ s. IsInside s)) }
{
    let Some(right) = bits_of(alloc, 2, 4, 4)? else {
        return Ok(None);
    };
    let Some(left) = part(DBase::Local(0), 0, 4) else {
        return Ok(None);
    };
    Ok(write(left, 4, right, true))
}

fn boxed_next(alloc: Global) -> Result<Option<Boxed<DStmt>>, NoMemory>
    ensures { IfOk result (λ made. IfSome made (λ s. IsInside s)) }
{
    match next(alloc)? {
        Some(s) => Ok(Some(Boxed::new(alloc, s)?)),
        None => Ok(None),
    }
}

fn boxed_half(alloc: Global) -> Result<Option<Boxed<DStmt>>, NoMemory>
    ensures { IfOk result (λ made. IfSome made (λ s. IsInside s)) }
{
    match half(alloc)? {
        Some(s) => Ok(Some(Boxed::new(alloc, s)?)),
        None => Ok(None),
    }
}

// `if (input[0]) result = local + 1; else result[3:0] = local[7:4]`, where the test is given.
fn choice_by(alloc: Global, test: DExpr) -> Result<Option<DStmt>, NoMemory>
    requires { IsWithin test }
    ensures { IfOk result (λ made. IfSome made (λ s. IsInside s)) }
{
    let Some(yes) = boxed_next(alloc)? else {
        return Ok(None);
    };
    let Some(no) = boxed_half(alloc)? else {
        return Ok(None);
    };
    Ok(Some(DStmt::If { test, yes, no }))
}

// The same, by the lowest bit of the input.
fn choice(alloc: Global) -> Result<Option<DStmt>, NoMemory>
    ensures { IfOk result (λ made. IfSome made (λ s. IsInside s)) }
{
    let Some(test) = bits_of(alloc, 1, 0, 1)? else {
        return Ok(None);
    };
    choice_by(alloc, test)
}

fn body(alloc: Global) -> Result<Option<DStmt>, NoMemory>
    ensures { IfOk result (λ made. IfSome made (λ s. IsInside s)) }
{
    let Some(first) = flip(alloc)? else {
        return Ok(None);
    };
    let Some(second) = choice(alloc)? else {
        return Ok(None);
    };
    Ok(Some(both(alloc, first, second)?))
}

fn one_byte(alloc: Global) -> Result<DLocalList, NoMemory>
    ensures { IfOk result (λ all. lengths all ≡ 8 ∷ []) }
{
    let mut all = Items::new(alloc);
    all.push(DLocal {
        length: 8,
        signed: false,
    })?;
    Ok(all)
}

fn one_argument(alloc: Global, x: DExpr) -> Result<DExprList, NoMemory>
    ensures { IfOk result (λ all. all ≡ x ∷ []) }
{
    let mut all = Items::new(alloc);
    all.push(x)?;
    Ok(all)
}

fn function(alloc: Global, body: DStmt) -> Result<Boxed<DFunction>, NoMemory>
    ensures { IfOk result (λ f. (f.length ≡ 8) × (lengths f.inputs ≡ 8 ∷ []) × (lengths f.locals ≡ 8 ∷ []) × (f.body ≡ body)) }
{
    let inputs = one_byte(alloc)?;
    let locals = one_byte(alloc)?;
    Ok(Boxed::new(
        alloc,
        DFunction {
            length: 8,
            signed: false,
            inputs,
            locals,
            body,
        },
    )?)
}

/// The call of the function of one input of 8 bits `local = input ^ 8'h0f; if (input[0]) result = local + 1; else result[3:0] = local[7:4];`.
/// The argument has at least 8 bits, of which the lowest 8 are passed (IEEE 1364-2005, 10.4.3). None where it has fewer.
pub fn call(alloc: Global, x: DExpr) -> Result<Option<DExpr>, NoMemory>
    ensures { IfOk result (λ made. IfSome made (λ e. (vs ls : List ℕ) → IsMade vs ls x → IsMade vs ls e)) }
{
    if x.length < 8 {
        return Ok(None);
    }
    let Some(body) = body(alloc)? else {
        return Ok(None);
    };
    let function = function(alloc, body)?;
    let arguments = one_argument(alloc, x)?;
    Ok(Some(DExpr {
        length: 8,
        signed: false,
        node: DNode::Call {
            function,
            arguments,
        },
    }))
}
