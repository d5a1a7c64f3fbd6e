ghost use Rattle.std.specs.Prelude.{◌≡◌, ◌∷◌, [], IfOk, length, map};
ghost use Rattle.bits_core.specs.Numbers.{bits_of};
ghost use Rattle.pass_tests.specs.Design.{lengths, seen, whole, one, stored, reset, items};

use bits_core::{Bits, NoMemory};
use design_core::{BitRef, DBase, DExpr, DLeft, DNode, DReset, DStmt, Item};
use item_exec::{settle_items, store_items};
use std::alloc::Global;
use std::test::Fail;
use value_domain::BitsDomain;

fn seen(signal: u32) -> DExpr
    ensures { result ≡ seen signal }
{
    DExpr {
        length: 1,
        signed: false,
        node: DNode::Signal(signal),
    }
}

fn one(alloc: Global) -> Result<DExpr, NoMemory>
    ensures { IfOk result (λ e. e ≡ one) }
{
    Ok(DExpr {
        length: 1,
        signed: false,
        node: DNode::Const(Bits::from_u128(alloc, 1, 1)?),
    })
}

fn whole(signal: u32) -> DLeft
    ensures { result ≡ whole signal }
{
    DLeft::Whole {
        base: DBase::Signal(signal),
        length: 1,
    }
}

fn stored(value: DExpr) -> DStmt
    ensures { result ≡ stored value }
{
    DStmt::Write {
        left: whole(3),
        right: value,
        blocking: false,
    }
}

fn reset(alloc: Global) -> Result<DReset, NoMemory>
    ensures { IfOk result (λ r. r ≡ reset) }
{
    Ok(DReset {
        bit: BitRef { signal: 0, bit: 0 },
        asserted: true,
        test: seen(0),
        branch: stored(one(alloc)?),
    })
}

fn items(alloc: Global) -> Result<Vec<Item>, NoMemory>
    ensures { IfOk result (λ list. list.items ≡ items) }
{
    let reset = reset(alloc)?;
    let mut list = Vec::new(alloc);
    list.push(Item::Assign {
        scope: 0,
        weight: 1,
        left: whole(2),
        right: seen(1),
    })?;
    list.push(Item::Clocked {
        scope: 0,
        weight: 4,
        reset: Some(reset),
        body: stored(seen(2)),
    })?;
    Ok(list)
}

#[tactic(auto, using(bits_core::proofs::NumberLaws::bits_of_length))]
fn bit(alloc: Global, value: u128) -> Result<Bits, NoMemory>
    ensures value { IfOk result (λ bits. bits ≡ bits_of 1 value) }
    ensures wide { IfOk result (λ bits. length bits ≡ 1) }
{
    let bits = Bits::from_u128(alloc, value, 1)?;
    Ok(bits)
}

/// The values of rst, d, y and q.
fn values(alloc: Global, rst: u128, d: u128, q: u128) -> Result<Vec<Bits>, NoMemory>
    ensures values { IfOk result (λ list. list.items ≡ bits_of 1 rst ∷ bits_of 1 d ∷ bits_of 1 0 ∷ bits_of 1 q ∷ []) }
    ensures wide { IfOk result (λ list. map length list.items ≡ lengths) }
{
    let rst = bit(alloc, rst)?;
    let d = bit(alloc, d)?;
    let y = bit(alloc, 0)?;
    let q = bit(alloc, q)?;
    let mut list = Vec::new(alloc);
    list.push(rst)?;
    list.push(d)?;
    list.push(y)?;
    list.push(q)?;
    Ok(list)
}

/// A cycle, the register first: what it reads is driven by no item.
fn run(alloc: Global, list: &[Item], now: &mut [Bits], next: &mut [Bits]) -> Result<(), NoMemory>
    requires items { list.now ≡ items }
    requires wide { map length now.old ≡ lengths }
    requires same { next.old ≡ now.old }
{
    let order = [1, 0];
    let mut domain = BitsDomain::new(alloc);
    settle_items(alloc, &mut domain, list, &order, now, next)?;
    store_items(alloc, &mut domain, list, &order, now, next)
}

fn is_set(list: &[Bits], signal: usize) -> bool {
    match list.get(signal) {
        Some(bits) => bits.len() == 1 && bits.get(0),
        None => false,
    }
}

/// Whether y and q have these values in a cycle that begins so, and q the last one behind it.
fn gives(
    alloc: Global,
    before: (u128, u128, u128),
    y: bool,
    q: bool,
    after: bool,
) -> Result<bool, NoMemory> {
    let (rst, d, old) = before;
    let list = items(alloc)?;
    let mut now = values(alloc, rst, d, old)?;
    let mut next = values(alloc, rst, d, old)?;
    run(
        alloc,
        list.as_slice(),
        now.as_mut_slice(),
        next.as_mut_slice(),
    )?;
    Ok(
        is_set(now.as_slice(), 2) == y
            && is_set(now.as_slice(), 3) == q
            && is_set(next.as_slice(), 3) == after,
    )
}

fn made(answer: Result<bool, NoMemory>) -> Result<bool, Fail> {
    match answer {
        Ok(value) => Ok(value),
        Err(_) => Err(Fail::from("no memory")),
    }
}

#[test]
fn a_register_takes_what_is_assigned(rt: HostRuntime) -> Result<(), Fail> {
    let alloc = rt.alloc();
    assert!(rt; made(gives(alloc, (0, 1, 0), true, false, true))?);
    assert!(rt; made(gives(alloc, (0, 0, 1), false, true, false))?);
    Ok(())
}

#[test]
fn a_reset_sets_the_register(rt: HostRuntime) -> Result<(), Fail> {
    let alloc = rt.alloc();
    assert!(rt; made(gives(alloc, (1, 0, 0), false, true, true))?);
    assert!(rt; made(gives(alloc, (1, 1, 0), true, true, true))?);
    Ok(())
}
