ghost use Rattle.std.specs.Prelude.{◌≡◌, ℕ, ◌+◌, ◌<◌, ◌≤◌, Bool, List, [], ◌∷◌, All, IfOk, OnOk, if◌then◌else◌, length, map, slice_index_or, slice_set, sum_by};
ghost use Rattle.bits_core.specs.Places.{placed};
ghost use Rattle.stmt_exec.specs.Aims.{IsTarget, SpotTakes, all_written, base_number, hit_of, one_written, spot_low};
ghost use Rattle.value_domain.specs.Meaning.{Keeps, Stands};
ghost use Rattle.value_domain.specs.Words.{IsGuard, IsWord, allows};

use bits_core::NoMemory;
use design_core::DBase;
use std::alloc::Global;
use value_domain::{Domain, Start, Word, guarded, place_at};

/// Where in a vector a part of an assignment is written: the whole, from a place on, or from the place on that an index gives.
#[derive(Drop)]
pub enum Spot<V> {
    Whole,
    At(i64),
    Variable { index: Word<V>, start: Start },
}

/// A part of the left side of an assignment, with its index read: a number of bits of a vector.
#[derive(Drop)]
pub struct Target<V> {
    pub vector: u32,
    pub length: u32,
    pub spot: Spot<V>,
}

/// A left side of one part.
pub fn one_target<V: Drop>(
    alloc: Global,
    base: DBase,
    length: u32,
    spot: Spot<V>,
) -> Result<Vec<Target<V>>, NoMemory>
    ensures { IfOk result (λ r. r.items ≡ record { vector = base_number base; length = length; spot = spot } ∷ []) }
{
    let vector = match base {
        DBase::Signal(s) => s,
        DBase::Local(k) => k,
    };
    let mut all = Vec::new(alloc);
    all.push(Target {
        vector,
        length,
        spot,
    })?;
    Ok(all)
}

/// The bits of all targets.
fn bits_of<V>(targets: &[Target<V>]) -> u32
    requires { sum_by (λ t. t.length) targets.now ≤ 65536 }
    ensures { result ≡ sum_by (λ t. t.length) targets.now }
{
    let mut bits = 0;
    for at in 0..targets.len() {
        bits += targets[at].length;
    }
    bits
}

/// A vector's value with a part written over it where the guard allows.
fn changed<D: Domain>(
    alloc: Global,
    domain: &mut D,
    spot: &Spot<D::Value>,
    part: Word<D::Value>,
    guard: &Option<D::Value>,
    old: &D::Value,
) -> Result<D::Value, NoMemory>
    requires guard_is { IsGuard D.meaning domain.old guard.now }
    requires part_is { IsWord D.meaning domain.old part }
    requires most { part.length ≤ 65536 }
    requires old_is { D.meaning.is_value domain.old old.now }
    requires wide { D.meaning.width old.now ≤ 65536 }
    requires fits { SpotTakes D.meaning domain.old (D.meaning.width old.now) part.length spot.now }
    ensures made { IfOk result (λ r. Stands D.meaning domain.new r (D.meaning.width old.now)
        (λ v. if allows D.meaning domain.old v guard.now
        then placed (spot_low D.meaning domain.old v spot.now) (D.meaning.reads domain.old v part.value) (D.meaning.reads domain.old v old.now)
        else D.meaning.reads domain.old v old.now)) }
    ensures kept { Keeps D.meaning domain.old domain.new }
{
    match spot {
        Spot::Whole => guarded(domain, guard, part.value, old),
        Spot::At(low) => {
            let had = domain.select(old, *low, part.length)?;
            let new = guarded(domain, guard, part.value, &had)?;
            domain.place(old, &new, *low)
        }
        Spot::Variable { index, start } => {
            let moved = place_at(alloc, domain, old, &part, index, *start)?;
            guarded(domain, guard, moved, old)
        }
    }
}

/// Writes the bits of a value from a place on to one target, where the guard allows it.
fn write_one<D: Domain>(
    alloc: Global,
    domain: &mut D,
    target: &Target<D::Value>,
    low: u32,
    value: &D::Value,
    guard: &Option<D::Value>,
    vectors: &mut [D::Value],
) -> Result<(), NoMemory>
    requires guard_is { IsGuard D.meaning domain.old guard.now }
    requires value_is { D.meaning.is_value domain.old value.now }
    requires all { All (D.meaning.is_value domain.old) vectors.old }
    requires most { All (λ n. n ≤ 65536) (map D.meaning.width vectors.old) }
    requires target_is { IsTarget D.meaning (map D.meaning.width vectors.old) domain.old target.now }
    ensures kept { Keeps D.meaning domain.old domain.new }
    ensures are { All (D.meaning.is_value domain.new) vectors.new }
    ensures wide { map D.meaning.width vectors.new ≡ map D.meaning.width vectors.old }
    ensures written { OnOk result ((v : ℕ → Bool) → map (D.meaning.reads domain.new v) vectors.new
        ≡ (if allows D.meaning domain.old v guard.now
        then one_written (hit_of D.meaning domain.old v target.now) low (D.meaning.reads domain.old v value.now) (map (D.meaning.reads domain.old v) vectors.old)
        else map (D.meaning.reads domain.old v) vectors.old)) }
{
    let bits = domain.select(value, low as i64, target.length)?;
    let part = Word {
        value: bits,
        length: target.length,
    };
    let place = target.vector as usize;
    let new = changed(alloc, domain, &target.spot, part, guard, &vectors[place])?;
    vectors[place] = new;
    Ok(())
}

/// Writes a value to the targets, the first of which takes its highest bits, one after the other (IEEE 1364-2005, 6.1 and 9.2).
/// Where the guard does not allow it, nothing changes. Linear in the lengths of the vectors that are written.
pub fn write_all<D: Domain>(
    alloc: Global,
    domain: &mut D,
    targets: &[Target<D::Value>],
    value: &D::Value,
    guard: &Option<D::Value>,
    vectors: &mut [D::Value],
) -> Result<(), NoMemory>
    requires guard_is { IsGuard D.meaning domain.old guard.now }
    requires value_is { D.meaning.is_value domain.old value.now }
    requires all { All (D.meaning.is_value domain.old) vectors.old }
    requires most { All (λ n. n ≤ 65536) (map D.meaning.width vectors.old) }
    requires targets_are { All (IsTarget D.meaning (map D.meaning.width vectors.old) domain.old) targets.now }
    requires bits { sum_by (λ t. t.length) targets.now ≤ 65536 }
    ensures kept { Keeps D.meaning domain.old domain.new }
    ensures are { All (D.meaning.is_value domain.new) vectors.new }
    ensures wide { map D.meaning.width vectors.new ≡ map D.meaning.width vectors.old }
    ensures written { OnOk result ((v : ℕ → Bool) → map (D.meaning.reads domain.new v) vectors.new
        ≡ (if allows D.meaning domain.old v guard.now
        then all_written (map (hit_of D.meaning domain.old v) targets.now) (D.meaning.reads domain.old v value.now) (map (D.meaning.reads domain.old v) vectors.old)
        else map (D.meaning.reads domain.old v) vectors.old)) }
{
    let mut left = bits_of(targets);
    for at in 0..targets.len() {
        left -= targets[at].length;
        write_one(alloc, domain, &targets[at], left, value, guard, vectors)?;
    }
    Ok(())
}
