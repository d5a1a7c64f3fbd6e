ghost use Rattle.std.specs.Prelude.{◌≡◌, ◌==◌, ℕ, ◌<◌, ◌≤◌, ◌&&◌, [], true, IfOk, OnOk, MatchOption, length, take, drop};
ghost use Rattle.item_order.specs.Spans.{holds};
ghost use Rattle.known_bits.specs.Known.{Gains, IsKept, among, knows};

use bits_core::NoMemory;
use item_order::Span;
use std::alloc::Global;

/// Which bits are known, by their numbers, and the known ones in the order in which they became known.
#[derive(Drop)]
pub struct KnownBits {
    pub known: Vec<bool>,
    pub trail: Vec<u32>,
}

/// No bit is known, of so many.
pub fn none(alloc: Global, bits: usize) -> Result<KnownBits, NoMemory>
    ensures kept { IfOk result (λ r. IsKept r.known.items r.trail.items) }
    ensures many { IfOk result (λ r. length r.known.items ≡ bits) }
    ensures none { IfOk result (λ r. r.trail.items ≡ []) }
{
    Ok(KnownBits {
        known: Vec::from_elem(alloc, false, bits)?,
        trail: Vec::new(alloc),
    })
}

/// Whether a bit is known.
pub fn has(all: &KnownBits, bit: u32) -> bool
    requires kept { IsKept all.now.known.items all.now.trail.items }
    ensures { result ≡ among bit all.now.trail.items }
{
    match all.known.get(bit as usize) {
        Some(known) => *known,
        None => false,
    }
}

/// A bit becomes known, and is put behind the trail if it was not.
fn learn_one(all: &mut KnownBits, bit: u32) -> Result<(), NoMemory>
    requires kept { IsKept all.old.known.items all.old.trail.items }
    requires fits { bit < length all.old.known.items }
    ensures kept { OnOk result (IsKept all.new.known.items all.new.trail.items) }
    ensures many { length all.new.known.items ≡ length all.old.known.items }
    ensures gains { OnOk result (Gains all.old.trail.items all.new.trail.items (λ n. bit == n)) }
{
    if !all.known[bit as usize] {
        all.known[bit as usize] = true;
        all.trail.push(bit)?;
    }
    Ok(())
}

/// The bits of a span become known. Linear in the span.
pub fn learn(all: &mut KnownBits, span: Span) -> Result<(), NoMemory>
    requires kept { IsKept all.old.known.items all.old.trail.items }
    requires fits { span.to ≤ length all.old.known.items }
    ensures kept { OnOk result (IsKept all.new.known.items all.new.trail.items) }
    ensures many { length all.new.known.items ≡ length all.old.known.items }
    ensures gains { OnOk result (Gains all.old.trail.items all.new.trail.items (holds span)) }
{
    for bit in span.from..span.to {
        learn_one(all, bit)?;
    }
    Ok(())
}

/// The bits that became known from a place of the trail on are unknown again; they are given. Linear in their number.
pub fn forget(alloc: Global, all: &mut KnownBits, from: usize) -> Result<Vec<u32>, NoMemory>
    requires kept { IsKept all.old.known.items all.old.trail.items }
    requires within { from ≤ length all.old.trail.items }
    ensures kept { IfOk result (λ r. IsKept all.new.known.items all.new.trail.items) }
    ensures many { length all.new.known.items ≡ length all.old.known.items }
    ensures left { IfOk result (λ r. all.new.trail.items ≡ take from all.old.trail.items) }
    ensures gone { IfOk result (λ r. (n : ℕ) → among n r.items ≡ among n (drop from all.old.trail.items)) }
{
    let mut gone = Vec::new(alloc);
    while all.trail.len() > from {
        if let Some(bit) = all.trail.pop() {
            all.known[bit as usize] = false;
            gone.push(bit)?;
        }
    }
    Ok(gone)
}

/// Those of some bits that are known.
fn both_of(alloc: Global, all: &KnownBits, bits: &[u32]) -> Result<Vec<u32>, NoMemory>
    requires kept { IsKept all.now.known.items all.now.trail.items }
    ensures { IfOk result (λ r. (n : ℕ) → among n r.items ≡ (among n bits.now && among n all.now.trail.items)) }
{
    let mut both = Vec::new(alloc);
    for at in 0..bits.len() {
        if has(all, bits[at]) {
            both.push(bits[at])?;
        }
    }
    Ok(both)
}

/// After a branch: what became known in it from a place of the trail on is unknown again, and those bits of it are given that became known in the earlier branches
/// too, if there were any. Linear in what became known in this branch and in the earlier ones.
pub fn meet(
    alloc: Global,
    all: &mut KnownBits,
    from: usize,
    earlier: Option<Vec<u32>>,
) -> Result<Vec<u32>, NoMemory>
    requires kept { IsKept all.old.known.items all.old.trail.items }
    requires within { from ≤ length all.old.trail.items }
    ensures kept { IfOk result (λ r. IsKept all.new.known.items all.new.trail.items) }
    ensures many { length all.new.known.items ≡ length all.old.known.items }
    ensures left { IfOk result (λ r. all.new.trail.items ≡ take from all.old.trail.items) }
    ensures fits { IfOk result (λ r. (n : ℕ) → among n r.items ≡ true → n < length all.old.known.items) }
    ensures common { IfOk result (λ r. MatchOption earlier ((n : ℕ) → among n r.items ≡ among n (drop from all.old.trail.items))
        (λ v. (n : ℕ) → among n r.items ≡ (among n v.items && among n all.old.trail.items))) }
{
    match earlier {
        None => forget(alloc, all, from),
        Some(bits) => {
            let both = both_of(alloc, all, bits.as_slice())?;
            forget(alloc, all, from)?;
            Ok(both)
        }
    }
}

/// These bits become known. Linear in their number.
pub fn learn_all(all: &mut KnownBits, bits: &[u32]) -> Result<(), NoMemory>
    requires kept { IsKept all.old.known.items all.old.trail.items }
    requires fits { (n : ℕ) → among n bits.now ≡ true → n < length all.old.known.items }
    ensures kept { OnOk result (IsKept all.new.known.items all.new.trail.items) }
    ensures many { length all.new.known.items ≡ length all.old.known.items }
    ensures gains { OnOk result (Gains all.old.trail.items all.new.trail.items (λ n. among n bits.now)) }
{
    for at in 0..bits.len() {
        learn_one(all, bits[at])?;
    }
    Ok(())
}
