ghost use Rattle.std.specs.Prelude.{◌≡◌, ℕ, ◌≤◌, Bool, All, IfOk, length, map, replicate, take};
ghost use Rattle.design_core.specs.declared.tree.DMatch.{out-DMatch};
ghost use Rattle.bits_core.specs.Places.{is_set};
ghost use Rattle.design_core.specs.declared.tree.DArm.{out-DArm};
ghost use Rattle.stmt_exec.specs.Choices.{AllTell, AreGuards, ItemFits, ItemsFit, Tells, allowed_of, arm_hits, firsts, some_hit};
ghost use Rattle.tree_parts.specs.Parts.{children_of, heads_of, items_of};
ghost use Rattle.value_domain.specs.Meaning.{Keeps};
ghost use Rattle.value_domain.specs.Words.{IsGuard, IsWord, allows};

use crate::frame::{copy_guard, zero};
use bits_core::NoMemory;
use design_core::{Binary, DArm, DMatch, DStmt};
use std::alloc::Global;
use value_domain::{Domain, Word, matched, narrowed};

/// Whether some item matches the selector, where the first values are those of the items (IEEE 1364-2005, 9.5.1).
fn any_hit<D: Domain>(
    alloc: Global,
    domain: &mut D,
    items: &[DMatch],
    selector: &Word<D::Value>,
    values: &[Word<D::Value>],
) -> Result<D::Value, NoMemory>
    requires selector_is { IsWord D.meaning domain.old selector.now }
    requires values_are { All (IsWord D.meaning domain.old) values.now }
    requires fit { All (ItemFits selector.now.length) items.now }
    requires long { take (length items.now) (map (λ w. w.length) values.now) ≡ map (λ x. (out-DMatch x).value.length) items.now }
    ensures made { IfOk result (λ r. Tells D.meaning domain.new r
        (λ v. some_hit items.now (D.meaning.reads domain.old v selector.now.value) (map (λ w. D.meaning.reads domain.old v w.value) values.now))) }
    ensures kept { Keeps D.meaning domain.old domain.new }
{
    let mut any = zero(alloc, domain, 1)?;
    for at in 0..items.len() {
        let hit = matched(domain, &selector.value, &values[at].value, &items[at].free)?;
        any = domain.binary(Binary::LogicOr, &any, &hit, false)?;
    }
    Ok(any)
}

/// Whether each arm matches the selector, where the values are those of all items in order (IEEE 1364-2005, 9.5).
fn hits<D: Domain>(
    alloc: Global,
    domain: &mut D,
    arms: &[DArm],
    selector: &Word<D::Value>,
    values: &[Word<D::Value>],
) -> Result<Vec<D::Value>, NoMemory>
    requires selector_is { IsWord D.meaning domain.old selector.now }
    requires values_are { All (IsWord D.meaning domain.old) values.now }
    requires fit { All (λ a. All (ItemFits selector.now.length) (out-DArm a).matches) arms.now }
    requires long { map (λ w. w.length) values.now ≡ map (λ e. e.length) (items_of arms.now) }
    ensures made { IfOk result (λ r. AllTell D.meaning domain.new r.items
        (λ v. arm_hits arms.now (D.meaning.reads domain.old v selector.now.value) (map (λ w. D.meaning.reads domain.old v w.value) values.now))) }
    ensures kept { Keeps D.meaning domain.old domain.new }
{
    let mut all = Vec::new(alloc);
    let mut from = 0;
    for at in 0..arms.len() {
        let hit = any_hit(
            alloc,
            domain,
            arms[at].matches.as_slice(),
            selector,
            &values[from..],
        )?;
        all.push(hit)?;
        from += arms[at].matches.len();
    }
    Ok(all)
}

/// Guards for where each of some tests is the first that holds, and last for where none holds.
fn first_of<D: Domain>(
    alloc: Global,
    domain: &mut D,
    tests: &[D::Value],
    guard: &Option<D::Value>,
) -> Result<Vec<Option<D::Value>>, NoMemory>
    requires guard_is { IsGuard D.meaning domain.old guard.now }
    requires tests_are { All (D.meaning.is_value domain.old) tests.now }
    ensures made { IfOk result (λ r. AreGuards D.meaning domain.new r.items
        (λ v. firsts (allows D.meaning domain.old v guard.now) (map (λ x. is_set (D.meaning.reads domain.old v x)) tests.now))) }
    ensures kept { Keeps D.meaning domain.old domain.new }
{
    let mut guards = Vec::new(alloc);
    let mut left = copy_guard(domain, guard)?;
    for at in 0..tests.len() {
        let on = narrowed(domain, &left, &tests[at], true)?;
        guards.push(Some(on))?;
        let off = narrowed(domain, &left, &tests[at], false)?;
        left = Some(off);
    }
    guards.push(left)?;
    Ok(guards)
}

/// The same guard so many times.
fn copies<D: Domain>(
    alloc: Global,
    domain: &mut D,
    guard: &Option<D::Value>,
    count: usize,
) -> Result<Vec<Option<D::Value>>, NoMemory>
    requires { IsGuard D.meaning domain.old guard.now }
    ensures made { IfOk result (λ r. AreGuards D.meaning domain.new r.items (λ v. replicate count (allows D.meaning domain.old v guard.now))) }
    ensures kept { Keeps D.meaning domain.old domain.new }
{
    let mut guards = Vec::new(alloc);
    for at in 0..count {
        let one = copy_guard(domain, guard)?;
        guards.push(one)?;
    }
    Ok(guards)
}

/// A guard for each part of a statement, where what the statement asks for has these values; of a `case` without default one more
/// (IEEE 1364-2005, 9.4 and 9.5). Linear in the number of parts and in the lengths of the items.
pub fn choose<D: Domain>(
    alloc: Global,
    domain: &mut D,
    body: &DStmt,
    words: &[Word<D::Value>],
    guard: &Option<D::Value>,
) -> Result<Vec<Option<D::Value>>, NoMemory>
    requires guard_is { IsGuard D.meaning domain.old guard.now }
    requires words_are { All (IsWord D.meaning domain.old) words.now }
    requires long { map (λ w. w.length) words.now ≡ map (λ e. e.length) (heads_of body.now) }
    requires fit { ItemsFit body.now }
    ensures made { IfOk result (λ r. AreGuards D.meaning domain.new r.items
        (λ v. allowed_of body.now (allows D.meaning domain.old v guard.now) (map (λ w. D.meaning.reads domain.old v w.value) words.now))) }
    ensures many { IfOk result (λ r. length (children_of body.now) ≤ length r.items) }
    ensures kept { Keeps D.meaning domain.old domain.new }
{
    match body {
        DStmt::Block(parts) | DStmt::Turns(parts) => copies(alloc, domain, guard, parts.len()),
        DStmt::Write { .. } => Ok(Vec::new(alloc)),
        DStmt::If { .. } => {
            let mut tests = Vec::new(alloc);
            let test = domain.copy(&words[0].value)?;
            tests.push(test)?;
            first_of(alloc, domain, tests.as_slice(), guard)
        }
        DStmt::Case { arms, .. } => {
            let tests = hits(alloc, domain, arms.as_slice(), &words[0], &words[1..])?;
            first_of(alloc, domain, tests.as_slice(), guard)
        }
    }
}
