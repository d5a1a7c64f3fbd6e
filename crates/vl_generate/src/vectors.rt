ghost use Rattle.std.specs.Prelude.{◌≡◌, IfOk, false, true};
ghost use Rattle.vl_size.specs.Terms.{term};
ghost use Rattle.vl_tree.specs.Outcomes.{Gives, GivesSeen};
ghost use Rattle.vl_generate.specs.Vectors as spec;

use crate::values::{alone, resized};
use bits_core::{Items, Name, NoMemory, NumberList};
use std::alloc::Global;
use vl_const::Constants;
use vl_items::copied;
use vl_size::{Const, NameKind, SizeEntry, whole};
use vl_tree::{Code, Expr, Halt, Ptype, Range};

/// The bits of a declared name: how many, and with which range.
#[derive(Clone, Copy, Debug, PartialEq, Eq)]
pub struct Vector {
    pub ranged: bool,
    pub length: u32,
    pub high: i64,
    pub low: i64,
}

/// The type of a parameter.
#[derive(Clone, Copy, Debug, PartialEq, Eq)]
pub enum Form {
    /// The length and the sign of its value.
    Own,
    /// The length of its value, with a sign.
    OwnSigned,
    /// These bits, with a sign or without one.
    Given(Vector, bool),
}

/// One bit without range.
pub fn one_bit() -> Vector
    ensures { result ≡ spec.one_bit }
{
    Vector {
        ranged: false,
        length: 1,
        high: 0,
        low: 0,
    }
}

/// The bits of an `integer`.
pub fn integer_bits() -> Vector
    ensures { result ≡ spec.integer_bits }
{
    Vector {
        ranged: true,
        length: 32,
        high: 31,
        low: 0,
    }
}

/// A declared bound.
#[derive(Clone, Copy)]
struct Limit {
    at: i64,
}

fn bound_of(whole: Option<i64>) -> Result<Limit, Halt>
    ensures { GivesSeen (λ b. b.at) result (spec.bound_of whole) }
{
    match whole {
        None => Err(Halt::Refused(Code::BadRange)),
        Some(at) => {
            if at < -2_147_483_648 || at > 2_147_483_647 {
                return Err(Halt::Refused(Code::BadRange));
            }
            Ok(Limit { at })
        }
    }
}

fn bound<S: Constants>(expr: &Expr, alloc: Global, scope: &S) -> Result<Limit, Halt>
    ensures { GivesSeen (λ b. b.at) result (spec.bound_at (S.meaning scope.now) (term expr.now)) }
{
    let value = alone(expr, alloc, scope)?;
    bound_of(whole(&value))
}

fn between(high: Limit, low: Limit) -> Result<Vector, Halt>
    ensures { Gives result (spec.between high.at low.at) }
{
    let gap = high.at.abs_diff(low.at);
    if gap > 65_535 {
        return Err(Halt::Refused(Code::BadRange));
    }
    Ok(Vector {
        ranged: true,
        length: gap as u32 + 1,
        high: high.at,
        low: low.at,
    })
}

fn range_vector<S: Constants>(range: &Range, alloc: Global, scope: &S) -> Result<Vector, Halt>
    ensures { Gives result (spec.range_vector (S.meaning scope.now) range.now) }
{
    let high = bound(&range.left, alloc, scope)?;
    let low = bound(&range.right, alloc, scope)?;
    between(high, low)
}

/// The bits of a declaration: those of its range, else one.
pub fn vector_of<S: Constants>(
    range: &Option<Range>,
    alloc: Global,
    scope: &S,
) -> Result<Vector, Halt>
    ensures { Gives result (spec.vector (S.meaning scope.now) range.now) }
{
    match range {
        None => Ok(one_bit()),
        Some(range) => range_vector(range, alloc, scope),
    }
}

fn vector_form<S: Constants>(
    range: &Option<Range>,
    alloc: Global,
    scope: &S,
    signed: bool,
) -> Result<Form, Halt>
    ensures { Gives result (spec.vector_form (S.meaning scope.now) signed range.now) }
{
    match range {
        None => Ok(if signed { Form::OwnSigned } else { Form::Own }),
        Some(range) => Ok(Form::Given(range_vector(range, alloc, scope)?, signed)),
    }
}

/// The type of a parameter.
pub fn form_of<S: Constants>(ptype: &Option<Ptype>, alloc: Global, scope: &S) -> Result<Form, Halt>
    ensures { Gives result (spec.form (S.meaning scope.now) ptype.now) }
{
    match ptype {
        None => Ok(Form::Own),
        Some(Ptype::Integer) => Ok(Form::Given(integer_bits(), true)),
        Some(Ptype::Vector { signed, range }) => vector_form(range, alloc, scope, *signed),
    }
}

/// What a name of this kind stands for.
pub fn entry(
    kind: NameKind,
    name: Name,
    bits: Vector,
    signed: bool,
    inputs: NumberList,
) -> SizeEntry
    ensures { result ≡ spec.entry kind name bits signed inputs }
{
    SizeEntry {
        name,
        kind,
        length: bits.length,
        signed,
        ranged: bits.ranged,
        high: bits.high,
        low: bits.low,
        inputs,
    }
}

/// What a signal's name stands for.
pub fn signal_entry(
    alloc: Global,
    name: &[u8],
    bits: Vector,
    signed: bool,
) -> Result<SizeEntry, NoMemory>
    ensures { IfOk result (λ r. r ≡ spec.signal_entry name.now bits signed) }
{
    let name = copied(alloc, name)?;
    Ok(entry(NameKind::Signal, name, bits, signed, Items::new(alloc)))
}

fn bits_vector(value: &Const) -> Vector
    ensures { result ≡ spec.bits_vector value.now.bits }
{
    Vector {
        ranged: false,
        length: value.bits.len() as u32,
        high: 0,
        low: 0,
    }
}

/// What a constant's name stands for, by its type and a value.
pub fn constant_entry(
    alloc: Global,
    name: &[u8],
    form: Form,
    value: &Const,
) -> Result<SizeEntry, NoMemory>
    ensures { IfOk result (λ r. r ≡ spec.constant_entry name.now form value.now) }
{
    let name = copied(alloc, name)?;
    let inputs = Items::new(alloc);
    match form {
        Form::Own => Ok(entry(
            NameKind::Constant,
            name,
            bits_vector(value),
            value.signed,
            inputs,
        )),
        Form::OwnSigned => Ok(entry(NameKind::Constant, name, bits_vector(value), true, inputs)),
        Form::Given(bits, signed) => { Ok(entry(NameKind::Constant, name, bits, signed, inputs)) }
    }
}

/// A value in its type.
pub fn typed(alloc: Global, form: Form, value: Const) -> Result<Const, NoMemory>
    ensures { IfOk result (λ r. r ≡ spec.typed form value) }
{
    match form {
        Form::Own => Ok(value),
        Form::OwnSigned => Ok(Const {
            bits: value.bits,
            signed: true,
        }),
        Form::Given(bits, signed) => Ok(Const {
            bits: resized(alloc, &value.bits, value.signed, bits.length)?,
            signed,
        }),
    }
}
