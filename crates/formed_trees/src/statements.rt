ghost use Rattle.std.specs.Prelude.{◌≡◌, ℕ, ◌&&◌, nat_le, [], ◌∷◌, Bool, true, List, All, IfOk, IfSome, MatchOption, Some, None, is_some};
ghost use Rattle.std.specs.List.{list_all};
ghost use Rattle.bits_core.specs.Numbers.{bits_of};
ghost use Rattle.design_core.specs.Formed.{is_vector};
ghost use Rattle.formed_trees.specs.Makers.{IsArm, IsMatch, block_stmt, case_stmt, fits_in, if_stmt, turns_stmt, write_stmt};
ghost use Rattle.formed_trees.specs.Trees.{IsBody, IsMade, has_size, has_sizes, is_arm, is_item, is_left};

use crate::expressions::{fits, is_vector};
use bits_core::{Bits, Items, NoMemory};
use design_core::{DArm, DExpr, DLeft, DMatch, DStmt};
use sqlite_items::Boxed;
use std::alloc::Global;

/// An assignment to a left side of this length.
pub fn write(left: DLeft, length: u32, right: DExpr, blocking: bool) -> Option<DStmt>
    ensures formed { IfSome result (λ s. (vs ls : List ℕ) (inside : Bool) (kinds : Bool → Bool) → is_left vs ls inside length left ≡ true → IsMade vs ls right → kinds blocking ≡ true → IsBody vs ls inside kinds s) }
    ensures tree { IfSome result (λ s. s ≡ write_stmt left right blocking) }
    ensures fit { is_some result ≡ nat_le length right.length }
{
    if length > right.length {
        return None;
    }
    Some(DStmt::Write {
        left,
        right,
        blocking,
    })
}

/// Statements one behind the other.
pub fn block(parts: Vec<DStmt>) -> DStmt
    ensures formed { (vs ls : List ℕ) (inside : Bool) (kinds : Bool → Bool) → All (IsBody vs ls inside kinds) parts.items → IsBody vs ls inside kinds result }
    ensures tree { result ≡ block_stmt parts.items }
{
    DStmt::Block(Items::of(parts))
}

fn two(alloc: Global, first: DStmt, second: DStmt) -> Result<Vec<DStmt>, NoMemory>
    ensures { IfOk result (λ parts. parts.items ≡ first ∷ second ∷ []) }
{
    let mut parts = Vec::new(alloc);
    parts.push(first)?;
    parts.push(second)?;
    Ok(parts)
}

/// Two statements one behind the other.
pub fn both(alloc: Global, first: DStmt, second: DStmt) -> Result<DStmt, NoMemory>
    ensures formed { IfOk result (λ s. (vs ls : List ℕ) (inside : Bool) (kinds : Bool → Bool) → IsBody vs ls inside kinds first → IsBody vs ls inside kinds second → IsBody vs ls inside kinds s) }
    ensures tree { IfOk result (λ s. s ≡ block_stmt (first ∷ second ∷ [])) }
{
    Ok(block(two(alloc, first, second)?))
}

/// The turns of a loop.
pub fn turns(parts: Vec<DStmt>) -> DStmt
    ensures formed { (vs ls : List ℕ) (inside : Bool) (kinds : Bool → Bool) → All (IsBody vs ls inside kinds) parts.items → IsBody vs ls inside kinds result }
    ensures tree { result ≡ turns_stmt parts.items }
{
    DStmt::Turns(Items::of(parts))
}

/// One of two statements by a test.
pub fn branch(alloc: Global, test: DExpr, yes: DStmt, no: DStmt) -> Result<DStmt, NoMemory>
    ensures formed { IfOk result (λ s. (vs ls : List ℕ) (inside : Bool) (kinds : Bool → Bool) → IsMade vs ls test → IsBody vs ls inside kinds yes → IsBody vs ls inside kinds no → IsBody vs ls inside kinds s) }
    ensures tree { IfOk result (λ s. s ≡ if_stmt test yes no) }
{
    let yes = Boxed::new(alloc, yes)?;
    let no = Boxed::new(alloc, no)?;
    Ok(DStmt::If { test, yes, no })
}

/// An item of a case.
pub fn item(value: DExpr) -> DMatch
    ensures formed { (vs ls : List ℕ) → IsMade vs ls value → is_item vs ls result ≡ true }
    ensures item { IsMatch value None result }
{
    DMatch { value, free: None }
}

/// An item of a case with free bits.
pub fn free_item(alloc: Global, value: DExpr, free: u128) -> Result<Option<DMatch>, NoMemory>
    ensures formed { IfOk result (λ made. IfSome made (λ m. (vs ls : List ℕ) → IsMade vs ls value → is_item vs ls m ≡ true)) }
    ensures item { IfOk result (λ made. IfSome made (IsMatch value (Some (bits_of value.length free)))) }
    ensures fit { IfOk result (λ made. is_some made ≡ (is_vector value.length && fits_in free value.length)) }
{
    let length = value.length;
    if !is_vector(length) || !fits(free, length) {
        return Ok(None);
    }
    let free = Bits::from_u128(alloc, free, length as usize)?;
    Ok(Some(DMatch {
        value,
        free: Some(free),
    }))
}

/// An arm of a case.
pub fn arm(matches: Vec<DMatch>, body: DStmt) -> DArm
    ensures formed { (vs ls : List ℕ) (inside : Bool) (kinds : Bool → Bool) → All (λ m. is_item vs ls m ≡ true) matches.items → IsBody vs ls inside kinds body → is_arm vs ls inside kinds result ≡ true }
    ensures arm { IsArm matches.items body result }
{
    DArm {
        matches: Items::of(matches),
        body,
    }
}

fn has_size(item: &DMatch, n: u32) -> bool
    ensures { result ≡ has_size n item.now }
{
    item.value.length == n
}

fn has_sizes(arm: &DArm, n: u32) -> bool
    ensures { result ≡ has_sizes n arm.now }
{
    arm.matches.as_slice().iter().all(|item| has_size(item, n))
}

fn have_sizes(arms: &[DArm], n: u32) -> bool
    ensures { result ≡ list_all (has_sizes n) arms.now }
{
    arms.iter().all(|arm| has_sizes(arm, n))
}

/// A case without a default.
pub fn case(selector: DExpr, arms: Vec<DArm>) -> Option<DStmt>
    ensures formed { IfSome result (λ s. (vs ls : List ℕ) (inside : Bool) (kinds : Bool → Bool) → IsMade vs ls selector → All (λ a. is_arm vs ls inside kinds a ≡ true) arms.items → IsBody vs ls inside kinds s) }
    ensures tree { IfSome result (λ s. s ≡ case_stmt selector arms.items None) }
    ensures fit { is_some result ≡ list_all (has_sizes selector.length) arms.items }
{
    if !have_sizes(arms.as_slice(), selector.length) {
        return None;
    }
    Some(DStmt::Case {
        selector,
        arms: Items::of(arms),
        rest: None,
    })
}

/// A case with a default.
pub fn case_else(
    alloc: Global,
    selector: DExpr,
    arms: Vec<DArm>,
    rest: DStmt,
) -> Result<Option<DStmt>, NoMemory>
    ensures formed { IfOk result (λ made. IfSome made (λ s. (vs ls : List ℕ) (inside : Bool) (kinds : Bool → Bool) → IsMade vs ls selector → All (λ a. is_arm vs ls inside kinds a ≡ true) arms.items → IsBody vs ls inside kinds rest → IsBody vs ls inside kinds s)) }
    ensures tree { IfOk result (λ made. IfSome made (λ s. s ≡ case_stmt selector arms.items (Some rest))) }
    ensures fit { IfOk result (λ made. is_some made ≡ list_all (has_sizes selector.length) arms.items) }
{
    if !have_sizes(arms.as_slice(), selector.length) {
        return Ok(None);
    }
    let rest = Boxed::new(alloc, rest)?;
    Ok(Some(DStmt::Case {
        selector,
        arms: Items::of(arms),
        rest: Some(rest),
    }))
}
