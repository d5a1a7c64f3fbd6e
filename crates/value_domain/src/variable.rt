ghost use Rattle.std.specs.Prelude.{◌≡◌, ℕ, ◌+◌, ◌^◌, ◌<◌, ◌≤◌, Bool, true, false, IfOk, replicate, ℤ};
ghost use Rattle.bits_core.specs.Numbers.{number};
ghost use Rattle.bits_core.specs.Places.{placed, selected};
ghost use Rattle.design_core.specs.Operators.{index_number, lowest};
ghost use Rattle.std.specs.Int.RustNames.{unsigned_abs};
ghost use Rattle.value_domain.specs.Meaning.{Keeps, Stands};
ghost use Rattle.value_domain.specs.Moved.{AreAmounts, AreNarrow, IsNearer, blended, far_tell, joined, less};
ghost use Rattle.value_domain.specs.Words.{IsWord};

use crate::domain::Domain;
use crate::parts::Word;
use bits_core::{Bits, NoMemory};
use design_core::{Binary, Unary};
use std::alloc::Global;

/// Where a variable select begins: at the index less the offset, or, where places count down, at the offset less the index.
/// The index counts by its own sign (IEEE 1364-2005, 5.2.1).
#[derive(Clone, Copy, Debug, PartialEq, Eq)]
pub struct Start {
    pub offset: i64,
    pub down: bool,
    pub signed: bool,
}

/// By how many places bits are moved down and up: one of both is 0 or past the end of every vector.
#[derive(Drop)]
pub struct Amounts<V> {
    pub right: V,
    pub left: V,
}

/// As many bits of a value as asked for, moved; 0 outside.
fn moved_bits<D: Domain>(
    domain: &mut D,
    base: &D::Value,
    amounts: &Amounts<D::Value>,
    len: u32,
) -> Result<D::Value, NoMemory>
    requires base_is { D.meaning.is_value domain.old base.now }
    requires amounts_are { AreNarrow D.meaning domain.old amounts.now }
    requires some { 1 ≤ len }
    requires most { len ≤ 65536 }
    ensures made { IfOk result (λ r. Stands D.meaning domain.new r len
        (λ v. joined (number (D.meaning.reads domain.old v amounts.now.right)) (number (D.meaning.reads domain.old v amounts.now.left)) len (D.meaning.reads domain.old v base.now))) }
    ensures kept { Keeps D.meaning domain.old domain.new }
{
    let lowered = domain.binary(Binary::ShiftRight, base, &amounts.right, false)?;
    let below = domain.select(&lowered, 0, len)?;
    let cut = domain.select(base, 0, len)?;
    let above = domain.binary(Binary::ShiftLeft, &cut, &amounts.left, false)?;
    domain.binary(Binary::Or, &below, &above, false)
}

/// The bits of a part, moved, in a value as wide as `zeros`, which are all 0.
fn spread<D: Domain>(
    domain: &mut D,
    zeros: &D::Value,
    part: &D::Value,
    amounts: &Amounts<D::Value>,
) -> Result<D::Value, NoMemory>
    requires zeros_are { D.meaning.is_value domain.old zeros.now }
    requires zero { (v : ℕ → Bool) → D.meaning.reads domain.old v zeros.now ≡ replicate (D.meaning.width zeros.now) false }
    requires part_is { D.meaning.is_value domain.old part.now }
    requires amounts_are { AreNarrow D.meaning domain.old amounts.now }
    ensures made { IfOk result (λ r. Stands D.meaning domain.new r (D.meaning.width zeros.now)
        (λ v. joined (number (D.meaning.reads domain.old v amounts.now.right)) (number (D.meaning.reads domain.old v amounts.now.left)) (D.meaning.width zeros.now) (D.meaning.reads domain.old v part.now))) }
    ensures kept { Keeps D.meaning domain.old domain.new }
{
    let lowered = domain.binary(Binary::ShiftRight, part, &amounts.right, false)?;
    let below = domain.place(zeros, &lowered, 0)?;
    let cut = domain.place(zeros, part, 0)?;
    let above = domain.binary(Binary::ShiftLeft, &cut, &amounts.left, false)?;
    domain.binary(Binary::Or, &below, &above, false)
}

/// A number of at most 128 bits less an offset, modulo 2 to the length.
fn less_offset<D: Domain>(
    alloc: Global,
    domain: &mut D,
    number: &Word<D::Value>,
    offset: i64,
) -> Result<D::Value, NoMemory>
    requires number_is { IsWord D.meaning domain.old number.now }
    requires narrow { number.now.length ≤ 128 }
    ensures made { IfOk result (λ r. Stands D.meaning domain.new r number.now.length (λ v. less offset number.now.length (D.meaning.reads domain.old v number.now.value))) }
    ensures kept { Keeps D.meaning domain.old domain.new }
{
    let bits = Bits::from_u128(alloc, offset.unsigned_abs() as u128, number.length as usize)?;
    let size = domain.constant(&bits)?;
    if offset < 0 {
        domain.binary(Binary::Add, &number.value, &size, false)
    } else {
        domain.binary(Binary::Sub, &number.value, &size, false)
    }
}

/// One bit: whether an index of 128 bits is far from every vector.
fn far_bit<D: Domain>(domain: &mut D, index: &D::Value, signed: bool) -> Result<D::Value, NoMemory>
    requires index_is { D.meaning.is_value domain.old index.now }
    ensures made { IfOk result (λ r. Stands D.meaning domain.new r 1 (λ v. far_tell signed (D.meaning.reads domain.old v index.now))) }
    ensures kept { Keeps D.meaning domain.old domain.new }
{
    let top = domain.select(index, 127, 1)?;
    if signed {
        let under = domain.select(index, 126, 1)?;
        domain.binary(Binary::Xor, &top, &under, false)
    } else {
        Ok(top)
    }
}

/// An index of at most 127 bits that selects the same.
fn nearer<D: Domain>(
    alloc: Global,
    domain: &mut D,
    index: &Word<D::Value>,
    signed: bool,
) -> Result<Word<D::Value>, NoMemory>
    requires index_is { IsWord D.meaning domain.old index.now }
    requires narrow { index.now.length ≤ 128 }
    ensures made { IfOk result (λ r. IsNearer D.meaning domain.old domain.new signed index.now r) }
    ensures kept { Keeps D.meaning domain.old domain.new }
{
    if index.length < 128 {
        let value = domain.copy(&index.value)?;
        return Ok(Word {
            value,
            length: index.length,
        });
    }
    let low = domain.select(&index.value, 0, 127)?;
    let far = far_bit(domain, &index.value, signed)?;
    let bits = Bits::from_u128(alloc, 42535295865117307932921825928971026432, 127)?;
    let distant = domain.constant(&bits)?;
    let value = domain.mux(&far, &distant, &low)?;
    Ok(Word { value, length: 127 })
}

/// Room for an index less an offset, with more to spare than a vector has bits.
fn room(length: u32, offset: i64) -> u32
    requires { length ≤ 127 }
    ensures fits { length ≤ result }
    ensures narrow { result ≤ 128 }
    ensures enough { 2 ^ length + unsigned_abs offset + 65536 ≤ 2 ^ result }
{
    if length <= 16 && -65536 <= offset && offset <= 65536 {
        18
    } else {
        128
    }
}

/// By how much a variable select moves.
fn move_by<D: Domain>(
    alloc: Global,
    domain: &mut D,
    index: &Word<D::Value>,
    start: Start,
) -> Result<Amounts<D::Value>, NoMemory>
    requires index_is { IsWord D.meaning domain.old index.now }
    requires narrow { index.now.length ≤ 128 }
    ensures made { IfOk result (λ r. AreAmounts D.meaning domain.new r (λ v. lowest start.offset start.down start.signed (D.meaning.reads domain.old v index.now.value))) }
    ensures kept { Keeps D.meaning domain.old domain.new }
{
    let near = nearer(alloc, domain, index, start.signed)?;
    let wide = room(near.length, start.offset);
    let value = domain.extend(&near.value, wide, start.signed)?;
    let number = Word {
        value,
        length: wide,
    };
    let moved = less_offset(alloc, domain, &number, start.offset)?;
    let turned = domain.unary(Unary::Negate, &moved)?;
    if start.down {
        Ok(Amounts {
            right: turned,
            left: moved,
        })
    } else {
        Ok(Amounts {
            right: moved,
            left: turned,
        })
    }
}

/// A value of so many bits 1.
fn ones<D: Domain>(alloc: Global, domain: &mut D, length: u32) -> Result<D::Value, NoMemory>
    requires some { 1 ≤ length }
    requires most { length ≤ 65536 }
    ensures made { IfOk result (λ r. Stands D.meaning domain.new r length (λ v. replicate length true)) }
    ensures kept { Keeps D.meaning domain.old domain.new }
{
    let none = Bits::zeros(alloc, length as usize)?;
    let value = domain.constant(&none)?;
    domain.unary(Unary::Invert, &value)
}

/// The bits of a value, and where a mask has 1 those of another that has 0 elsewhere.
fn blend<D: Domain>(
    domain: &mut D,
    whole: &D::Value,
    mask: &D::Value,
    bits: &D::Value,
) -> Result<D::Value, NoMemory>
    requires whole_is { D.meaning.is_value domain.old whole.now }
    requires others_are { D.meaning.is_value domain.old mask.now × D.meaning.is_value domain.old bits.now }
    requires mask_wide { D.meaning.width mask.now ≡ D.meaning.width whole.now }
    requires bits_wide { D.meaning.width bits.now ≡ D.meaning.width whole.now }
    ensures made { IfOk result (λ r. Stands D.meaning domain.new r (D.meaning.width whole.now)
        (λ v. blended (D.meaning.reads domain.old v whole.now) (D.meaning.reads domain.old v mask.now) (D.meaning.reads domain.old v bits.now))) }
    ensures kept { Keeps D.meaning domain.old domain.new }
{
    let outside = domain.unary(Unary::Invert, mask)?;
    let rest = domain.binary(Binary::And, whole, &outside, false)?;
    domain.binary(Binary::Or, &rest, bits, false)
}

/// As many bits of a value as asked for, from the place on that an index gives; 0 outside (IEEE 1364-2005, 5.2.1).
/// Some multiple of both lengths, 17 times in a net.
pub fn select_at<D: Domain>(
    alloc: Global,
    domain: &mut D,
    base: &D::Value,
    index: &Word<D::Value>,
    start: Start,
    len: u32,
) -> Result<D::Value, NoMemory>
    requires base_is { D.meaning.is_value domain.old base.now }
    requires fits { D.meaning.width base.now ≤ 65536 }
    requires index_is { IsWord D.meaning domain.old index.now }
    requires narrow { index.now.length ≤ 128 }
    requires some { 1 ≤ len }
    requires most { len ≤ 65536 }
    ensures made { IfOk result (λ r. Stands D.meaning domain.new r len
        (λ v. selected (lowest start.offset start.down start.signed (D.meaning.reads domain.old v index.now.value)) len (D.meaning.reads domain.old v base.now))) }
    ensures kept { Keeps D.meaning domain.old domain.new }
{
    let by = move_by(alloc, domain, index, start)?;
    moved_bits(domain, base, &by, len)
}

/// The bits of a part written over those of a value from the place on that an index gives; nothing outside (IEEE 1364-2005, 5.2.1).
/// Some multiple of both lengths, 34 times in a net.
pub fn place_at<D: Domain>(
    alloc: Global,
    domain: &mut D,
    whole: &D::Value,
    part: &Word<D::Value>,
    index: &Word<D::Value>,
    start: Start,
) -> Result<D::Value, NoMemory>
    requires whole_is { D.meaning.is_value domain.old whole.now }
    requires fits { D.meaning.width whole.now ≤ 65536 }
    requires part_is { IsWord D.meaning domain.old part.now }
    requires index_is { IsWord D.meaning domain.old index.now }
    requires narrow { index.now.length ≤ 128 }
    requires most { part.now.length ≤ 65536 }
    ensures made { IfOk result (λ r. Stands D.meaning domain.new r (D.meaning.width whole.now)
        (λ v. placed (lowest start.offset start.down start.signed (D.meaning.reads domain.old v index.now.value)) (D.meaning.reads domain.old v part.now.value) (D.meaning.reads domain.old v whole.now))) }
    ensures kept { Keeps D.meaning domain.old domain.new }
{
    let back = Start {
        offset: start.offset,
        down: !start.down,
        signed: start.signed,
    };
    let by = move_by(alloc, domain, index, back)?;
    let zeros = domain.binary(Binary::Xor, whole, whole, false)?;
    let ones = ones(alloc, domain, part.length)?;
    let mask = spread(domain, &zeros, &ones, &by)?;
    let bits = spread(domain, &zeros, &part.value, &by)?;
    blend(domain, whole, &mask, &bits)
}
