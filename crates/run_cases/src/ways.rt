ghost use Rattle.std.specs.Prelude.{◌≡◌, ◌≤◌, nat_le, Bool, true, false, List, [], IfOk, length, map};
ghost use Rattle.std.specs.List.{list_all};
ghost use Rattle.design_core.specs.Formed.{IsFormed, IsFormedLeft};
ghost use Rattle.run_cases.specs.Trees.{IsStmt};

use crate::numbers::value;
use bits_core::{Bits, Duplicate, Items, NoMemory};
use design_core::{DExpr, DLeft, DStmt};
use std::alloc::Global;
use stmt_exec::{Env, exec, exec_where, write_at_once};
use value_domain::BitsDomain;

/// How a statement is run: as it is, where some bit of a guard is 1, or as an assignment that is seen at once.
#[derive(Drop)]
pub enum Way {
    Plain,
    Where(Bits),
    AtOnce,
}

fn read_guard(alloc: Global, text: &str) -> Result<Option<Way>, NoMemory> {
    let Some((length, bits)) = value(text) else {
        return Ok(None);
    };
    if length < 1 || length > 65_536 {
        return Ok(None);
    }
    let guard = Bits::from_u128(alloc, bits, length as usize)?;
    Ok(Some(Way::Where(guard)))
}

/// `at_once`, or `LENGTH:HEX` of a guard.
pub fn read_way(alloc: Global, text: &str) -> Result<Option<Way>, NoMemory> {
    if text == "at_once" {
        Ok(Some(Way::AtOnce))
    } else {
        read_guard(alloc, text)
    }
}

// An environment in which each signal has its value, and keeps it at the end of the cycle.
fn env_from(alloc: Global, signals: Vec<Bits>) -> Result<Env<Bits>, NoMemory>
    ensures now { IfOk result (λ env. env.now.items ≡ signals.items) }
    ensures next { IfOk result (λ env. env.next.items ≡ signals.items) }
{
    let now = Items::of(signals);
    let next = now.copy(alloc)?;
    Ok(Env {
        now: now.into_vec(),
        next: next.into_vec(),
    })
}

// The signals after a statement.
fn env_of(alloc: Global, s: &DStmt, signals: Vec<Bits>) -> Result<Env<Bits>, NoMemory>
    requires body { IsStmt signals.items s.now }
    requires short { list_all (λ (bits : List Bool). nat_le (length bits) 65536) signals.items ≡ true }
{
    let mut env = env_from(alloc, signals)?;
    let mut domain = BitsDomain::new(alloc);
    exec(alloc, &mut domain, s, &mut env)?;
    Ok(env)
}

// The signals after a statement that runs where the guard allows it.
fn env_where(
    alloc: Global,
    s: &DStmt,
    signals: Vec<Bits>,
    guard: Bits,
) -> Result<Env<Bits>, NoMemory>
    requires body { IsStmt signals.items s.now }
    requires short { list_all (λ (bits : List Bool). nat_le (length bits) 65536) signals.items ≡ true }
{
    let mut env = env_from(alloc, signals)?;
    let mut domain = BitsDomain::new(alloc);
    let guard = Some(guard);
    let now = env.now.as_mut_slice();
    let next = env.next.as_mut_slice();
    exec_where(alloc, &mut domain, &guard, s, now, next)?;
    Ok(env)
}

// The signals after an assignment that is seen at once.
fn env_at_once(
    alloc: Global,
    left: &DLeft,
    right: &DExpr,
    signals: Vec<Bits>,
) -> Result<Env<Bits>, NoMemory>
    requires left { IsFormedLeft (map length signals.items) [] false left.now }
    requires right { IsFormed (map length signals.items) [] right.now }
    requires short { list_all (λ (bits : List Bool). nat_le (length bits) 65536) signals.items ≡ true }
{
    let mut env = env_from(alloc, signals)?;
    let mut domain = BitsDomain::new(alloc);
    let now = env.now.as_mut_slice();
    let next = env.next.as_mut_slice();
    write_at_once(alloc, &mut domain, left, right, now, next)?;
    Ok(env)
}

/// The signals after a statement that is run so; none where it is no assignment and should be seen at once.
pub fn env_by(
    alloc: Global,
    s: &DStmt,
    signals: Vec<Bits>,
    way: Way,
) -> Result<Option<Env<Bits>>, NoMemory>
    requires body { IsStmt signals.items s.now }
    requires short { list_all (λ (bits : List Bool). nat_le (length bits) 65536) signals.items ≡ true }
{
    match way {
        Way::Plain => Ok(Some(env_of(alloc, s, signals)?)),
        Way::Where(guard) => Ok(Some(env_where(alloc, s, signals, guard)?)),
        Way::AtOnce => match s {
            DStmt::Write { left, right, .. } => {
                Ok(Some(env_at_once(alloc, left, right, signals)?))
            }
            _ => Ok(None),
        },
    }
}
