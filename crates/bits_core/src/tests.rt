ghost use Rattle.std.specs.Prelude.{◌≡◌, IfOk, length};

use crate::{Bits, Bytes, Duplicate, File, Items, Name, NoMemory, Shift};
use std::alloc::Global;
use std::test::Fail;

/// The eight lowest bits of a number.
#[tactic(auto, using(crate::proofs::NumberLaws::bits_of_length))]
fn eight(alloc: Global, value: u128) -> Result<Bits, Fail>
    ensures { IfOk result (λ bits. length bits ≡ 8) }
{
    match Bits::from_u128(alloc, value, 8) {
        Ok(bits) => Ok(bits),
        Err(_) => Err(Fail::from("no memory")),
    }
}

/// Whether the bits are those of a number.
fn reads(bits: &Bits, value: u128) -> bool {
    let mut rest = value;
    for at in 0..bits.len() {
        if bits.get(at) != (rest % 2 == 1) {
            return false;
        }
        rest /= 2;
    }
    rest == 0
}

fn made<T: Drop>(answer: Result<T, NoMemory>) -> Result<T, Fail> {
    match answer {
        Ok(value) => Ok(value),
        Err(_) => Err(Fail::from("no memory")),
    }
}

#[test]
fn operators_on_165_and_91(rt: HostRuntime) -> Result<(), Fail> {
    let alloc = rt.alloc();
    let a = eight(alloc, 165)?;
    let b = eight(alloc, 91)?;
    assert!(rt; reads(&made(Bits::copy(alloc, &a))?, 165));
    assert!(rt; Bits::eq(&a, &a));
    assert!(rt; !Bits::eq(&a, &b));
    let mut out = eight(alloc, 0)?;
    Bits::add_into(&a, &b, &mut out);
    assert!(rt; reads(&out, 0));
    Bits::sub_into(&a, &b, &mut out);
    assert!(rt; reads(&out, 74));
    Bits::mul_into(&a, &b, &mut out);
    assert!(rt; reads(&out, 0xa7));
    Bits::and_into(&a, &b, &mut out);
    assert!(rt; reads(&out, 0x01));
    Bits::or_into(&a, &b, &mut out);
    assert!(rt; reads(&out, 0xff));
    Bits::xor_into(&a, &b, &mut out);
    assert!(rt; reads(&out, 0xfe));
    assert!(rt; !Bits::less(&a, &b, false));
    assert!(rt; Bits::less(&a, &b, true));
    Ok(())
}

#[test]
fn places_of_165(rt: HostRuntime) -> Result<(), Fail> {
    let alloc = rt.alloc();
    let a = eight(alloc, 165)?;
    let mut out = eight(alloc, 0)?;
    Bits::shift_into(Shift::Left, &a, 3, &mut out);
    assert!(rt; reads(&out, 0x28));
    Bits::shift_into(Shift::Right, &a, 3, &mut out);
    assert!(rt; reads(&out, 0x14));
    Bits::shift_into(Shift::RightSigned, &a, 3, &mut out);
    assert!(rt; reads(&out, 0xf4));
    Bits::shift_into(Shift::RightSigned, &a, 1 << 100, &mut out);
    assert!(rt; reads(&out, 0xff));
    Bits::select_into(&a, -2, &mut out);
    assert!(rt; reads(&out, 0x94));
    Bits::place_into(&a, 4, &mut out);
    assert!(rt; reads(&out, 0x54));
    let mut wide = made(Bits::zeros(alloc, 10))?;
    Bits::extend_into(&a, true, &mut wide);
    assert!(rt; reads(&wide, 0x3a5));
    Ok(())
}

#[test]
fn copies(rt: HostRuntime) -> Result<(), Fail> {
    let alloc = rt.alloc();
    let mut files = Items::new(alloc);
    let name = Name::of(b"m.v".to_vec(alloc)?);
    let bytes = Bytes::of(b"module".to_vec(alloc)?);
    made(files.push(File { name, bytes }))?;
    let copied = made(files.copy(alloc))?;
    assert_eq!(rt; copied.len(), 1);
    assert!(rt; copied.get(0).name.as_slice() == b"m.v".as_slice());
    assert!(rt; copied.get(0).bytes.as_slice() == b"module".as_slice());
    Ok(())
}
