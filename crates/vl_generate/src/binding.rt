ghost use Rattle.std.specs.Prelude.{◌≡◌, ◌<◌, [], true, IfOk, length, replicate, slice_set};
ghost use Rattle.std.specs.Option.{option_copied};
ghost use Rattle.vl_names.specs.Names.{listed};
ghost use Rattle.vl_tree.specs.Outcomes.{Gives};
ghost use Rattle.vl_generate.specs.Overrides as spec;

use crate::values::alone;
use bits_core::{Bits, Items, NoMemory};
use std::alloc::Global;
use vl_const::Constants;
use vl_names::Index;
use vl_size::Const;
use vl_tree::{Binds, Code, Expr, Halt, NamedBind, token_name};

/// What an instance binds to a parameter.
#[derive(Drop)]
pub enum Override {
    /// Nothing names it.
    Open,
    /// It is named, without a value.
    Kept,
    Value(Const),
}

/// What an instance binds to each parameter.
pub type OverrideList = Items<Override>;

fn bound_value<S: Constants>(
    value: &Option<Expr>,
    alloc: Global,
    scope: &S,
) -> Result<Override, Halt>
    ensures { Gives result (spec.bound_value (S.meaning scope.now) value.now) }
{
    match value {
        None => Ok(Override::Kept),
        Some(expr) => Ok(Override::Value(alone(expr, alloc, scope)?)),
    }
}

fn all_open(alloc: Global, count: usize) -> Result<OverrideList, NoMemory>
    ensures { IfOk result (λ r. r ≡ replicate count spec.nothing_bound) }
{
    let mut all = Items::new(alloc);
    for turn in 0..count {
        all.push(Override::Open)?;
    }
    Ok(all)
}

fn with_override(all: OverrideList, at: usize, bound: Override) -> OverrideList
    requires { at < length all }
    ensures { result ≡ slice_set all at bound }
{
    let mut items = all.into_vec();
    items[at] = bound;
    Items::of(items)
}

fn ordered<S: Constants>(
    values: &[Option<Expr>],
    alloc: Global,
    scope: &S,
    unbound: OverrideList,
) -> Result<OverrideList, Halt>
    ensures { Gives result (spec.ordered (S.meaning scope.now) 0 unbound values.now) }
{
    let mut all = unbound;
    let mut at = 0;
    for value in values {
        if at >= all.len() {
            return Err(Halt::Refused(Code::BadOverride));
        }
        let bound = bound_value(value, alloc, scope)?;
        all = with_override(all, at, bound);
        at += 1;
    }
    Ok(all)
}

fn is_open(bound: Option<&Override>) -> bool
    ensures { result ≡ spec.is_open (option_copied bound.entry) }
{
    match bound {
        None => false,
        Some(Override::Open) => true,
        Some(Override::Kept) => false,
        Some(Override::Value(_)) => false,
    }
}

fn override_at(all: &[Override], at: Option<usize>) -> Option<&Override>
    ensures { option_copied result ≡ spec.override_at all.now at }
{
    match at {
        None => None,
        Some(at) => all.get(at),
    }
}

fn set_at(all: OverrideList, at: Option<usize>, bound: Override) -> OverrideList
    ensures { spec.is_open (spec.override_at all at) ≡ true → result ≡ spec.set_at all at bound }
{
    match at {
        None => all,
        Some(at) => {
            if at < all.len() {
                with_override(all, at, bound)
            } else {
                all
            }
        }
    }
}

fn by_name<S: Constants>(
    binds: &[NamedBind],
    alloc: Global,
    scope: &S,
    names: &Index,
    unbound: OverrideList,
) -> Result<OverrideList, Halt>
    ensures { Gives result (spec.by_name (S.meaning scope.now) (listed names.now) unbound binds.now) }
{
    let mut all = unbound;
    for bind in binds {
        let at = names.place(token_name(&bind.name));
        if !is_open(override_at(all.as_slice(), at)) {
            return Err(Halt::Refused(Code::BadOverride));
        }
        let bound = bound_value(&bind.value, alloc, scope)?;
        all = set_at(all, at, bound);
    }
    Ok(all)
}

/// What an instance binds to the parameters that may be overridden, whose names these are. E12 for a name that is none of them, for one
/// twice, and for more by position than there are. Linear in the parameters and the overrides.
pub fn overrides<S: Constants>(
    binds: &Option<Binds>,
    alloc: Global,
    scope: &S,
    names: &Index,
) -> Result<OverrideList, Halt>
    ensures { Gives result (spec.overrides (S.meaning scope.now) (listed names.now) binds.now) }
{
    let unbound = all_open(alloc, names.len())?;
    match binds {
        None => Ok(unbound),
        Some(Binds::Ordered(values)) => ordered(values.as_slice(), alloc, scope, unbound),
        Some(Binds::Named(binds)) => by_name(binds.as_slice(), alloc, scope, names, unbound),
    }
}

fn copy_of(alloc: Global, value: &Const) -> Result<Const, NoMemory>
    ensures { IfOk result (λ r. r ≡ value.now) }
{
    Ok(Const {
        bits: Bits::copy(alloc, &value.bits)?,
        signed: value.signed,
    })
}

fn chosen(alloc: Global, bound: Option<&Override>, value: Const) -> Result<Const, NoMemory>
    ensures { IfOk result (λ r. r ≡ spec.or_value (option_copied bound.entry) value) }
{
    match bound {
        None => Ok(value),
        Some(Override::Open) => Ok(value),
        Some(Override::Kept) => Ok(value),
        Some(Override::Value(other)) => copy_of(alloc, other),
    }
}

/// The value of a parameter: its override's, else its default.
pub fn or_value(
    alloc: Global,
    names: &Index,
    all: &[Override],
    name: &[u8],
    value: Const,
) -> Result<Const, NoMemory>
    ensures { IfOk result (λ r. r ≡ spec.overridden (listed names.now) all.now name.now value) }
{
    chosen(alloc, override_at(all, names.place(name)), value)
}
