ghost use Rattle.std.specs.Prelude.{◌≡◌, ℕ, ◌≤◌, [], ◌∷◌, ◌++◌, Bool, List, All, IfOk, MatchOption, true, false, length, map, replicate, slice_index_or};
ghost use Rattle.design_core.specs.Core.{entered};
ghost use Rattle.design_core.specs.Formed.{is_vector};
ghost use Rattle.design_core.specs.Operators.{by_sign};
ghost use Rattle.design_core.specs.Terms.{lengths};
ghost use Rattle.stmt_exec.specs.State.{Standing, locals_in, signals_in};
ghost use Rattle.value_domain.specs.Meaning.{Keeps, Stands};
ghost use Rattle.value_domain.specs.Words.{IsGuard, IsWord, allows};

use bits_core::{Bits, NoMemory};
use design_core::{Binary, DExpr, DLocal, DNode};
use std::alloc::Global;
use value_domain::{Domain, Word};

/// The signals that a body sees: in a function those outside it.
pub fn signals_of<'a, V>(inside: bool, outer: &'a [V], now: &'a [V]) -> &'a [V]
    ensures { result.now ≡ signals_in inside outer.now now.now }
{
    if inside { outer } else { now }
}

/// The locals that a body sees.
pub fn locals_of<'a, V>(inside: bool, outer: &'a [V], now: &'a [V]) -> &'a [V]
    ensures { result.now ≡ locals_in inside outer.now now.now }
{
    if inside { now } else { outer }
}

/// Whether an operator takes its operands as signed (IEEE 1364-2005, 5.5.1).
pub fn signed_by(op: Binary, own: bool, left: bool, right: bool) -> bool
    ensures { result ≡ by_sign op own left right }
{
    match op {
        Binary::Less
        | Binary::LessEqual
        | Binary::Greater
        | Binary::GreaterEqual
        | Binary::Equal
        | Binary::NotEqual => left & right,
        _ => own,
    }
}

/// A value of so many bits 0.
pub fn zero<D: Domain>(alloc: Global, domain: &mut D, length: u32) -> Result<D::Value, NoMemory>
    requires { is_vector length ≡ true }
    ensures made { IfOk result (λ r. Stands D.meaning domain.new r length (λ v. replicate length false)) }
    ensures kept { Keeps D.meaning domain.old domain.new }
{
    let bits = Bits::zeros(alloc, length as usize)?;
    domain.constant(&bits)
}

/// The locals as a call begins: the result at 0, the arguments at the lengths of the inputs, the rest at 0 (IEEE 1364-2005, 10.4).
pub fn enter<D: Domain>(
    alloc: Global,
    domain: &mut D,
    size: u32,
    inputs: &[DLocal],
    rest: &[DLocal],
    arguments: &[Word<D::Value>],
) -> Result<Vec<D::Value>, NoMemory>
    requires arguments_are { All (IsWord D.meaning domain.old) arguments.now }
    requires many { length arguments.now ≡ length inputs.now }
    requires result_fits { is_vector size ≡ true }
    requires inputs_fit { All (λ n. is_vector n ≡ true) (lengths inputs.now) }
    requires rest_fit { All (λ n. is_vector n ≡ true) (lengths rest.now) }
    ensures made { IfOk result (λ r. Standing D.meaning domain.new r.items (size ∷ (lengths inputs.now ++ lengths rest.now))
        (λ v. entered size (lengths inputs.now) (lengths rest.now) (map (λ w. D.meaning.reads domain.old v w.value) arguments.now))) }
    ensures kept { Keeps D.meaning domain.old domain.new }
{
    let mut all = Vec::new(alloc);
    let result = zero(alloc, domain, size)?;
    all.push(result)?;
    for at in 0..inputs.len() {
        let value = domain.extend(&arguments[at].value, inputs[at].length, false)?;
        all.push(value)?;
    }
    for at in 0..rest.len() {
        let value = zero(alloc, domain, rest[at].length)?;
        all.push(value)?;
    }
    Ok(all)
}

/// The first of some values once more.
pub fn copy_first<D: Domain>(domain: &mut D, values: &[D::Value]) -> Result<D::Value, NoMemory>
    requires some { 1 ≤ length values.now }
    requires values_are { All (D.meaning.is_value domain.old) values.now }
    ensures made { IfOk result (λ r. Stands D.meaning domain.new r (slice_index_or (map D.meaning.width values.now) 0 0)
        (λ v. slice_index_or (map (D.meaning.reads domain.old v) values.now) 0 [])) }
    ensures kept { Keeps D.meaning domain.old domain.new }
{
    domain.copy(&values[0])
}

/// The same guard once more.
pub fn copy_guard<D: Domain>(
    domain: &mut D,
    guard: &Option<D::Value>,
) -> Result<Option<D::Value>, NoMemory>
    requires { IsGuard D.meaning domain.old guard.now }
    ensures made { IfOk result (λ r. IsGuard D.meaning domain.new r × ((v : ℕ → Bool) → allows D.meaning domain.new v r ≡ allows D.meaning domain.old v guard.now)) }
    ensures kept { Keeps D.meaning domain.old domain.new }
{
    match guard {
        None => Ok(None),
        Some(g) => {
            let copied = domain.copy(g)?;
            Ok(Some(copied))
        }
    }
}
