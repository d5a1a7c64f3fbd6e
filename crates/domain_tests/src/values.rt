ghost use Rattle.std.specs.Prelude.{◌≡◌, ◌≤◌, IfOk, length};

use bits_core::{Bits, NoMemory};
use design_core::{Binary, Unary};
use std::alloc::Global;
use std::test::Fail;
use value_domain::{
    BitsDomain, Domain, Start, Word, guarded, join, matched, narrowed, place_at, repeat, select_at,
};

fn made(answer: Result<Bits, NoMemory>) -> Result<Bits, Fail> {
    match answer {
        Ok(value) => Ok(value),
        Err(_) => Err(Fail::from("no memory")),
    }
}

/// Whether the bits are those of a number.
fn reads(bits: &Bits, value: u128) -> bool {
    let mut rest = value;
    for at in 0..bits.len() {
        if bits.get(at) != (rest % 2 == 1) {
            return false;
        }
        rest /= 2;
    }
    rest == 0
}

#[test]
fn each_call_on_small_values(rt: HostRuntime) -> Result<(), Fail> {
    let alloc = rt.alloc();
    let mut domain = BitsDomain::new(alloc);
    let nine = made(Bits::from_u128(alloc, 9, 4))?;
    let a = made(domain.constant(&nine))?;
    let one = made(domain.unary(Unary::Xnor, &a))?;
    assert!(rt; reads(&one, 1));
    let wide = made(domain.extend(&a, 6, true))?;
    assert!(rt; reads(&wide, 0x39));
    let part = made(domain.select(&a, 3, 2))?;
    assert!(rt; reads(&part, 1));
    let written = made(domain.place(&a, &part, 1))?;
    assert!(rt; reads(&written, 11));
    let copied = made(domain.copy(&a))?;
    assert!(rt; reads(&copied, 9));
    let both = made(domain.binary(Binary::LogicAnd, &a, &one, false))?;
    assert!(rt; reads(&both, 1));
    Ok(())
}

/// The lowest bits of a number as a word.
fn word(alloc: Global, value: u128, size: u32) -> Result<Word<Bits>, Fail>
    requires some { 1 ≤ size }
    requires most { size ≤ 65536 }
    ensures wide { IfOk result (λ w. length w.value ≡ w.length) }
    ensures long { IfOk result (λ w. w.length ≡ size) }
{
    match Bits::from_u128(alloc, value, size as usize) {
        Ok(value) => Ok(Word {
            value,
            length: size,
        }),
        Err(_) => Err(Fail::from("no memory")),
    }
}

/// Whether the four bits from a variable place on are as expected.
fn selects(
    alloc: Global,
    index: u128,
    size: u32,
    start: Start,
    expected: u128,
) -> Result<bool, Fail>
    requires some { 1 ≤ size }
    requires most { size ≤ 128 }
{
    let mut domain = BitsDomain::new(alloc);
    let base = word(alloc, 0xb2, 8)?;
    let at = word(alloc, index, size)?;
    let bits = made(select_at(alloc, &mut domain, &base.value, &at, start, 4))?;
    Ok(reads(&bits, expected))
}

/// Whether three bits written from a variable place on leave what is expected.
fn writes(alloc: Global, index: u128, size: u32, start: Start, expected: u128) -> Result<bool, Fail>
    requires some { 1 ≤ size }
    requires most { size ≤ 128 }
{
    let mut domain = BitsDomain::new(alloc);
    let base = word(alloc, 0xb2, 8)?;
    let part = word(alloc, 5, 3)?;
    let at = word(alloc, index, size)?;
    let bits = made(place_at(alloc, &mut domain, &base.value, &part, &at, start))?;
    Ok(reads(&bits, expected))
}

fn from(offset: i64, down: bool, signed: bool) -> Start {
    Start {
        offset,
        down,
        signed,
    }
}

#[test]
fn variable_places(rt: HostRuntime) -> Result<(), Fail> {
    let alloc = rt.alloc();
    assert!(rt; selects(alloc, 3, 4, from(0, false, false), 6)?);
    assert!(rt; selects(alloc, 6, 4, from(0, false, true), 2)?);
    assert!(rt; selects(alloc, 14, 4, from(0, false, true), 8)?);
    assert!(rt; selects(alloc, 14, 4, from(0, false, false), 0)?);
    assert!(rt; selects(alloc, 0, 3, from(1, false, false), 4)?);
    assert!(rt; selects(alloc, 4, 3, from(7, true, false), 6)?);
    assert!(rt; selects(alloc, 1000003, 127, from(1000000, false, true), 6)?);
    assert!(rt;
        selects(
            alloc,
            340282366920938463463374607431768211455,
            128,
            from(0, false, true),
            4
        )?
    );
    assert!(rt;
        selects(
            alloc,
            340282366920938463463374607431768211455,
            128,
            from(0, false, false),
            0
        )?
    );
    assert!(rt; writes(alloc, 6, 4, from(0, false, false), 0x72)?);
    assert!(rt; writes(alloc, 14, 4, from(0, false, true), 0xb3)?);
    assert!(rt; writes(alloc, 9, 64, from(3, false, false), 0x72)?);
    Ok(())
}

fn made_word(answer: Result<Word<Bits>, NoMemory>) -> Result<Word<Bits>, Fail> {
    match answer {
        Ok(word) => Ok(word),
        Err(_) => Err(Fail::from("no memory")),
    }
}

/// Whether an item of a case with these free bits is that of the selector.
fn matches(alloc: Global, selector: u128, item: u128, free: u128) -> Result<bool, Fail> {
    let mut domain = BitsDomain::new(alloc);
    let selector = word(alloc, selector, 4)?;
    let item = word(alloc, item, 4)?;
    let free = word(alloc, free, 4)?;
    let bits = made(matched(&mut domain, &selector.value, &item.value, &Some(free.value)))?;
    Ok(reads(&bits, 1))
}

/// The new value where a guard and a test allow it, else the old one.
fn chosen(alloc: Global, guard: u128, test: u128, on: bool) -> Result<Bits, Fail> {
    let mut domain = BitsDomain::new(alloc);
    let guard = Some(word(alloc, guard, 1)?.value);
    let test = word(alloc, test, 3)?;
    let both = Some(made(narrowed(&mut domain, &guard, &test.value, on))?);
    let new = word(alloc, 9, 4)?;
    let old = word(alloc, 6, 4)?;
    made(guarded(&mut domain, &both, new.value, &old.value))
}

#[test]
fn parts_and_guards(rt: HostRuntime) -> Result<(), Fail> {
    let alloc = rt.alloc();
    let mut domain = BitsDomain::new(alloc);
    let high = word(alloc, 2, 2)?;
    let low = word(alloc, 1, 3)?;
    let joined = made_word(join(&mut domain, &high, &low))?;
    assert!(rt; joined.length == 5 && reads(&joined.value, 17));
    let thrice = made_word(repeat(&mut domain, 3, &high))?;
    assert!(rt; thrice.length == 6 && reads(&thrice.value, 42));
    assert!(rt; matches(alloc, 13, 9, 4)?);
    assert!(rt; !matches(alloc, 13, 9, 2)?);
    assert!(rt; reads(&chosen(alloc, 1, 4, true)?, 9));
    assert!(rt; reads(&chosen(alloc, 1, 4, false)?, 6));
    assert!(rt; reads(&chosen(alloc, 0, 4, true)?, 6));
    Ok(())
}
