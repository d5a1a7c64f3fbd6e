ghost use Rattle.std.specs.Prelude.{◌≡◌, ℕ, ◌+◌, ◌&&◌, ◌==◌, [], ◌∷◌, Bool, true, List, IfOk, IfSome, is_some};
ghost use Rattle.design_core.specs.Formed.{base_fits, is_narrow, is_vector};
ghost use Rattle.formed_trees.specs.Makers.{at_left, pair_left, part_left, whole_left};
ghost use Rattle.formed_trees.specs.Trees.{IsMade, is_left, is_vector_of};

use crate::expressions::{is_narrow, is_vector};
use bits_core::{Items, NoMemory};
use design_core::{DBase, DExpr, DLeft};
use sqlite_items::Boxed;
use std::alloc::Global;

/// A left side with its length.
#[derive(Drop)]
pub struct SizedLeft {
    pub left: DLeft,
    pub length: u32,
}

/// The whole of a vector of this length.
pub fn whole(base: DBase, length: u32) -> Option<DLeft>
    ensures formed { IfSome result (λ l. (vs ls : List ℕ) (inside : Bool) → is_vector_of vs ls inside base length ≡ true → is_left vs ls inside length l ≡ true) }
    ensures tree { IfSome result (λ l. l ≡ whole_left base length) }
    ensures fit { is_some result ≡ is_vector length }
{
    if !is_vector(length) {
        return None;
    }
    Some(DLeft::Whole { base, length })
}

/// Bits of a vector from a place on.
pub fn part(base: DBase, low: i64, length: u32) -> Option<DLeft>
    ensures formed { IfSome result (λ l. (vs ls : List ℕ) (inside : Bool) → base_fits vs ls inside base ≡ true → is_left vs ls inside length l ≡ true) }
    ensures tree { IfSome result (λ l. l ≡ part_left base low length) }
    ensures fit { is_some result ≡ is_vector length }
{
    if !is_vector(length) {
        return None;
    }
    Some(DLeft::Part { base, low, length })
}

/// Bits of a vector from a place on that an index gives, which counts up or down.
pub fn at(
    alloc: Global,
    base: DBase,
    index: DExpr,
    offset: i64,
    down: bool,
    length: u32,
) -> Result<Option<DLeft>, NoMemory>
    ensures formed { IfOk result (λ made. IfSome made (λ l. (vs ls : List ℕ) (inside : Bool) → base_fits vs ls inside base ≡ true → IsMade vs ls index → is_left vs ls inside length l ≡ true)) }
    ensures tree { IfOk result (λ made. IfSome made (λ l. l ≡ at_left base index offset down length)) }
    ensures fit { IfOk result (λ made. is_some made ≡ is_vector length && is_narrow index.length) }
{
    if !is_vector(length) || !is_narrow(index.length) {
        return Ok(None);
    }
    let index = Boxed::new(alloc, index)?;
    Ok(Some(DLeft::At {
        base,
        index,
        offset,
        down,
        length,
    }))
}

fn two(alloc: Global, high: DLeft, low: DLeft) -> Result<Vec<DLeft>, NoMemory>
    ensures { IfOk result (λ parts. parts.items ≡ high ∷ low ∷ []) }
{
    let mut parts = Vec::new(alloc);
    parts.push(high)?;
    parts.push(low)?;
    Ok(parts)
}

/// Two left sides of these lengths side by side, which have this length together.
pub fn pair(
    alloc: Global,
    high: DLeft,
    high_length: u32,
    low: DLeft,
    low_length: u32,
    length: u32,
) -> Result<Option<DLeft>, NoMemory>
    ensures formed { IfOk result (λ made. IfSome made (λ l. (vs ls : List ℕ) (inside : Bool) → is_left vs ls inside high_length high ≡ true → is_left vs ls inside low_length low ≡ true → is_left vs ls inside length l ≡ true)) }
    ensures tree { IfOk result (λ made. IfSome made (λ l. l ≡ pair_left high low)) }
    ensures fit { IfOk result (λ made. is_some made ≡ is_vector length && (high_length + low_length == length)) }
{
    if !is_vector(length) || high_length.checked_add(low_length) != Some(length) {
        return Ok(None);
    }
    let parts = two(alloc, high, low)?;
    Ok(Some(DLeft::Concat(Items::of(parts))))
}
