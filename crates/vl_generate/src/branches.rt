ghost use Rattle.std.specs.Prelude.{◌≡◌, ◌++◌, ◌∷◌, [], ◌||◌, map, option_map, false, Ok, Some, IfOk};
ghost use Rattle.vl_items.specs.Parts.{part, gen_part, body, option_body, arms_of, arm_part};
ghost use Rattle.vl_tree.specs.Outcomes.{Gives, GivesSeen};
ghost use Rattle.vl_generate.specs.Branches as spec;

use crate::values::{case_value, joint_size, own_size, test};
use bits_core::{Items, NoMemory, NumberList};
use std::alloc::Global;
use value_domain::operators::same;
use vl_const::Constants;
use vl_size::{Const, Size};
use vl_tree::{Block, Expr, Gen, GenArm, Halt, Item, Token, token_name};

/// A block of a generate construct that is taken.
#[derive(Drop)]
pub struct Taken<'f> {
    /// Its place in the construct.
    pub place: NumberList,
    /// The name behind its `begin`, if it has one.
    pub label: Option<&'f [u8]>,
}

fn label_by<'f>(name: &Option<Token<'f>>) -> Option<&'f [u8]>
    ensures { option_map (λ n. n.now) result ≡ spec.label_by name.now }
{
    match name {
        None => None,
        Some(token) => Some(token_name(token)),
    }
}

/// The name behind the `begin` of a block, if there is one.
pub fn label_of<'f>(block: &Block<'f>) -> Option<&'f [u8]>
    ensures { option_map (λ n. n.now) result ≡ spec.label (body block.now) }
{
    match block {
        Block::Begin { name, .. } => label_by(name),
        Block::Item(_) => None,
        Block::Empty => None,
    }
}

/// A place as a number of 32 bits; none is larger where memory suffices.
fn number(at: usize) -> Result<u32, NoMemory>
    ensures { IfOk result (λ r. r ≡ at) }
{
    if at > 4_294_967_295 {
        return Err(NoMemory);
    }
    Ok(at as u32)
}

fn below(alloc: Global, place: &[u32], next: usize) -> Result<NumberList, NoMemory>
    ensures { IfOk result (λ r. r ≡ place.now ++ next ∷ []) }
{
    let mut all = Vec::new(alloc);
    all.extend_from_slice(place)?;
    let mut all = Items::of(all);
    all.push(number(next)?)?;
    Ok(all)
}

fn taking<'f>(
    place: &[u32],
    alloc: Global,
    label: Option<&'f [u8]>,
) -> Result<Option<Taken<'f>>, Halt>
    ensures { GivesSeen spec.seen result (Ok (Some (spec.taken_block place.now (option_map (λ n. n.now) label.entry)))) }
{
    let mut all = Vec::new(alloc);
    all.extend_from_slice(place)?;
    Ok(Some(Taken {
        place: Items::of(all),
        label,
    }))
}

/// The block of an `if` that is taken, if any, when the construct stands at `place`; an `else` that an `if` follows continues the construct
/// (IEEE 1364-2005, 12.4.2). A block's place is the construct's, then 0 behind the test and 1 behind `else`, where the single item of an `else`
/// is its number 0. The faults are those of the tests that are met. Linear in the tests and the depth of the place.
pub fn of_if<'f, S: Constants>(
    yes: &Block<'f>,
    no: &Option<Block<'f>>,
    condition: &Expr<'f>,
    alloc: Global,
    scope: &S,
    place: &[u32],
) -> Result<Option<Taken<'f>>, Halt>
    ensures { GivesSeen spec.seen result (spec.of_choice (S.meaning scope.now) place.now condition.now (body yes.now) (option_body no.now)) }
{
    of_choice(no, yes, condition, alloc, scope, place)
}

#[cycle(of_choice)]
fn of_choice<'f, S: Constants>(
    no: &Option<Block<'f>>,
    yes: &Block<'f>,
    condition: &Expr<'f>,
    alloc: Global,
    scope: &S,
    place: &[u32],
) -> Result<Option<Taken<'f>>, Halt>
    ensures { GivesSeen spec.seen result (spec.of_choice (S.meaning scope.now) place.now condition.now (body yes.now) (option_body no.now)) }
{
    let here = below(alloc, place, 0)?;
    let other = below(alloc, place, 1)?;
    if test(condition, alloc, scope)? {
        return taking(here.as_slice(), alloc, label_of(yes));
    }
    match no {
        None => Ok(None),
        Some(block) => of_else(block, alloc, scope, other.as_slice()),
    }
}

#[cycle(of_choice)]
fn of_else<'f, S: Constants>(
    block: &Block<'f>,
    alloc: Global,
    scope: &S,
    place: &[u32],
) -> Result<Option<Taken<'f>>, Halt>
    ensures { GivesSeen spec.seen result (spec.of_else (S.meaning scope.now) place.now (body block.now)) }
{
    match block {
        Block::Begin { name, .. } => taking(place, alloc, label_by(name)),
        Block::Item(item) => of_single(item.get(), alloc, scope, place),
        Block::Empty => taking(place, alloc, None),
    }
}

/// What an `else` and one item take.
#[cycle(of_choice)]
fn of_single<'f, S: Constants>(
    item: &Item<'f>,
    alloc: Global,
    scope: &S,
    place: &[u32],
) -> Result<Option<Taken<'f>>, Halt>
    ensures { GivesSeen spec.seen result (spec.of_single (S.meaning scope.now) place.now (part item.now)) }
{
    match item {
        Item::Gen(generate) => of_gen(generate.get(), alloc, scope, place),
        Item::Port(_)
        | Item::Net(_)
        | Item::Integer(_)
        | Item::GenVar(_)
        | Item::Parameter(_)
        | Item::Assign(_)
        | Item::Always(_)
        | Item::Initial(_)
        | Item::Function(_)
        | Item::Instances(_)
        | Item::Gates(_)
        | Item::Generate(_) => taking(place, alloc, None),
    }
}

#[cycle(of_choice)]
fn of_gen<'f, S: Constants>(
    generate: &Gen<'f>,
    alloc: Global,
    scope: &S,
    place: &[u32],
) -> Result<Option<Taken<'f>>, Halt>
    ensures { GivesSeen spec.seen result (spec.of_single (S.meaning scope.now) place.now (gen_part generate.now)) }
{
    match generate {
        Gen::If { test, yes, no } => {
            let inner = below(alloc, place, 0)?;
            of_choice(no, yes, test, alloc, scope, inner.as_slice())
        }
        Gen::For { .. } => taking(place, alloc, None),
        Gen::Case { .. } => taking(place, alloc, None),
    }
}

/// The size that a selector and all items of a `case` share.
fn arms_size<S: Constants>(
    arms: &[GenArm],
    alloc: Global,
    scope: &S,
    size: Size,
) -> Result<Size, NoMemory>
    ensures { IfOk result (λ r. r ≡ spec.arms_size (S.meaning scope.now) size (arms_of (map arm_part arms.now))) }
{
    let mut all = size;
    for arm in arms {
        all = arm_size(arm, alloc, scope, all)?;
    }
    Ok(all)
}

fn arm_size<S: Constants>(
    arm: &GenArm,
    alloc: Global,
    scope: &S,
    size: Size,
) -> Result<Size, NoMemory>
    ensures { IfOk result (λ r. r ≡ spec.arm_size (S.meaning scope.now) size (arm_part arm.now)) }
{
    match arm {
        GenArm::Match { values, .. } => joint_size(values.as_slice(), alloc, scope, size),
        GenArm::Default(_) => Ok(size),
    }
}

#[tactic(auto, using(crate::proofs::ArmLaws::unequal))]
fn is_same(a: &Const, b: &Const) -> bool
    ensures { result ≡ spec.is_same a.now b.now }
{
    if a.bits.len() != b.bits.len() {
        return false;
    }
    same(&a.bits, &b.bits)
}

fn either(a: bool, b: bool) -> bool
    ensures { result ≡ a || b }
{
    a || b
}

/// Whether one of the items has the selector's value; all are evaluated.
fn some_match<S: Constants>(
    values: &[Expr],
    alloc: Global,
    scope: &S,
    size: Size,
    selector: &Const,
) -> Result<bool, Halt>
    ensures { Gives result (spec.some_match (S.meaning scope.now) size selector.now false values.now) }
{
    let mut found = false;
    for value in values {
        let other = case_value(value, alloc, scope, size)?;
        found = either(found, is_same(selector, &other));
    }
    Ok(found)
}

/// The places of the first arm whose items match so far, and of `default`.
#[derive(Clone, Copy)]
struct Found {
    matched: Option<usize>,
    default: Option<usize>,
}

fn first_of(before: Option<usize>, at: usize) -> Option<usize>
    ensures { result ≡ spec.first_of before at }
{
    match before {
        None => Some(at),
        Some(first) => Some(first),
    }
}

fn with_match(on: bool, at: usize, before: Found) -> Found
    ensures { spec.found_of result.matched result.default ≡ spec.with_match on at (spec.found_of before.matched before.default) }
{
    if on {
        Found {
            matched: first_of(before.matched, at),
            default: before.default,
        }
    } else {
        before
    }
}

fn with_arm<S: Constants>(
    arm: &GenArm,
    alloc: Global,
    scope: &S,
    size: Size,
    selector: &Const,
    at: usize,
    before: Found,
) -> Result<Found, Halt>
    ensures { GivesSeen (λ f. spec.found_of f.matched f.default) result (spec.with_arm (S.meaning scope.now) size selector.now at (spec.found_of before.matched before.default) (arm_part arm.now)) }
{
    match arm {
        GenArm::Match { values, .. } => {
            let on = some_match(values.as_slice(), alloc, scope, size, selector)?;
            Ok(with_match(on, at, before))
        }
        GenArm::Default(_) => {
            Ok(Found {
                matched: before.matched,
                default: first_of(before.default, at),
            })
        }
    }
}

fn of_arms<S: Constants>(
    arms: &[GenArm],
    alloc: Global,
    scope: &S,
    size: Size,
    selector: &Const,
) -> Result<Found, Halt>
    ensures { GivesSeen (λ f. spec.found_of f.matched f.default) result (spec.of_arms (S.meaning scope.now) size selector.now 0 spec.no_match (arms_of (map arm_part arms.now))) }
{
    let mut all = Found {
        matched: None,
        default: None,
    };
    let mut at: usize = 0;
    for arm in arms {
        all = with_arm(arm, alloc, scope, size, selector, at, all)?;
        at += 1;
    }
    Ok(all)
}

fn or_else(matched: Option<usize>, default: Option<usize>) -> Option<usize>
    ensures { result ≡ spec.or_else matched default }
{
    match matched {
        None => default,
        Some(first) => Some(first),
    }
}

fn arm_label<'f>(arm: &GenArm<'f>) -> Option<&'f [u8]>
    ensures { option_map (λ n. n.now) result ≡ spec.label (spec.arm_body (arm_part arm.now)) }
{
    match arm {
        GenArm::Match { block, .. } => label_of(block),
        GenArm::Default(block) => label_of(block),
    }
}

/// The block of the arm at a place.
fn taken_at<'f>(
    arms: &[GenArm<'f>],
    alloc: Global,
    place: &[u32],
    at: usize,
) -> Result<Option<Taken<'f>>, NoMemory>
    ensures { IfOk result (λ r. spec.seen r ≡ spec.arm_taken place.now at (spec.arm_at (arms_of (map arm_part arms.now)) at)) }
{
    match arms.get(at) {
        None => Ok(None),
        Some(arm) => Ok(Some(Taken {
            place: below(alloc, place, at)?,
            label: arm_label(arm),
        })),
    }
}

/// The block of a `case` that is taken, if any, when the construct stands at `place`: that of the first arm of which an item has the selector's
/// value, else that of `default` (IEEE 1364-2005, 12.4.2). A block's place is the construct's, then the number of its arm. The selector and all
/// items are evaluated, at the length and the sign that they share; the faults are theirs. Linear in the selector and the items.
pub fn of_case<'f, S: Constants>(
    arms: &[GenArm<'f>],
    selector: &Expr<'f>,
    alloc: Global,
    scope: &S,
    place: &[u32],
) -> Result<Option<Taken<'f>>, Halt>
    ensures { GivesSeen spec.seen result (spec.of_cases (S.meaning scope.now) place.now selector.now (arms_of (map arm_part arms.now))) }
{
    let size = arms_size(arms, alloc, scope, own_size(selector, alloc, scope)?)?;
    let value = case_value(selector, alloc, scope, size)?;
    let found = of_arms(arms, alloc, scope, size, &value)?;
    match or_else(found.matched, found.default) {
        None => Ok(None),
        Some(at) => Ok(taken_at(arms, alloc, place, at)?),
    }
}
