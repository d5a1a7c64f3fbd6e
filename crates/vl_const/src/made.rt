ghost use Rattle.std.specs.Prelude.{◌≡◌, ◌≤◌, ◌*◌, ◌++◌, ◌&&◌, IfOk, length, nat_lt, reverse, false, if◌then◌else◌};
ghost use Rattle.std.specs.Option.{option_copied};
ghost use Rattle.bits_core.specs.Places.{extended, sign_of};
ghost use Rattle.vl_const.specs.Rooms.{top_bit as top_bit_of};
ghost use Rattle.design_core.specs.Operators.{chosen, repeated};
ghost use Rattle.vl_const.specs.Answers as spec;
ghost use Rattle.vl_const.specs.Rooms.{room as room_of};
ghost use Rattle.vl_size.specs.Nodes.{is_kind as is_of_kind};
ghost use Rattle.vl_tree.specs.Order.{lower as lower_of, where_true as code_where};

use crate::answers::{Answer, Joined, Place, is_none};
use crate::operators::{Work, ceiling_log, is_negative, worked};
use crate::places::{Whole, aim_of, low_at};
use bits_core::{Bits, Items, NoMemory};
use design_core::Unary;
use std::alloc::Global;
use value_domain::operators::some_set;
use value_domain::words::unary_bits;
use vl_size::{Const, NameKind, Size, SizeEntry, SystemFunction};
use vl_tree::{Code, lower, where_true};

/// The number of bits that a value of this length has.
pub fn room(length: u32) -> usize
    ensures value { result ≡ room_of length }
    ensures some { 1 ≤ result }
    ensures most { result ≤ 65536 }
{
    if length == 0 {
        1
    } else if length > 65_536 {
        65_536
    } else {
        length as usize
    }
}

/// Bits brought to a context.
pub fn fit(alloc: Global, context: Size, value: &Bits) -> Result<Bits, NoMemory>
    ensures { IfOk result (λ r. r ≡ spec.fit context value.now) }
{
    let mut out = Bits::zeros(alloc, room(context.length))?;
    Bits::extend_into(value, context.signed, &mut out);
    Ok(out)
}

/// The answer of a part at the length of its context, by its sign. Refused for want of memory alone.
pub fn brought(alloc: Global, context: Size, a: Answer) -> Result<Answer, NoMemory>
    ensures { IfOk result (λ r. r ≡ spec.brought context a) }
{
    Ok(Answer {
        value: fit(alloc, context, &a.value)?,
        reads: a.reads,
        fault: a.fault,
    })
}

fn zeros(alloc: Global, context: Size) -> Result<Bits, NoMemory>
    ensures { IfOk result (λ r. r ≡ spec.zeros context) }
{
    Bits::zeros(alloc, room(context.length))
}

/// An operator before an operand.
pub fn unary_made(
    alloc: Global,
    op: Option<Unary>,
    wide: bool,
    context: Size,
    a: Answer,
) -> Result<Answer, NoMemory>
    ensures { IfOk result (λ r. r ≡ spec.unary_made op wide context a) }
{
    match op {
        None => brought(alloc, context, a),
        Some(op) => {
            let value = unary_bits(alloc, op, &a.value)?;
            Ok(Answer {
                value: fit(alloc, context, &value)?,
                reads: a.reads,
                fault: lower(a.fault, where_true(wide, Code::WideArithmetic)),
            })
        }
    }
}

fn divided(sound: bool, a: &Answer, b: &Answer) -> Option<Code>
    ensures { result ≡ spec.tested Work.Quotient sound false a.now b.now }
{
    let unknown = where_true(a.reads || b.reads, Code::NotConstant);
    let zero = sound && !some_set(&b.value);
    lower(unknown, where_true(zero, Code::ZeroDivisor))
}

/// The faults of an operator on constants.
fn tested(op: Work, sound: bool, signed: bool, a: &Answer, b: &Answer) -> Option<Code>
    ensures { result ≡ spec.tested op sound signed a.now b.now }
{
    match op {
        Work::Plain(_) => None,
        Work::Quotient | Work::Remainder => divided(sound, a, b),
        Work::Power => {
            let negative = sound && is_negative(signed, &b.value);
            where_true(a.reads || b.reads || negative, Code::NotConstant)
        }
    }
}

fn is_sound(own: Option<Code>, a: &Answer) -> bool
    ensures { result ≡ spec.is_sound own a.now }
{
    !a.reads && is_none(own) && is_none(a.fault)
}

/// What surrounds an operator: the sign by which it works, whether it is too wide, and the lowest code and the sign of its second operand.
#[derive(Clone, Copy)]
pub struct Around {
    pub context: Size,
    pub signed: bool,
    pub wide: bool,
    pub fault: Option<Code>,
    pub second: bool,
}

fn where_wide(wide: bool) -> Option<Code>
    ensures { result ≡ code_where wide Code.WideArithmetic }
{
    where_true(wide, Code::WideArithmetic)
}

/// The lowest of the codes of two operands and of two of the operator itself.
fn lowest_of_four(
    first: Option<Code>,
    second: Option<Code>,
    third: Option<Code>,
    last: Option<Code>,
) -> Option<Code>
    ensures { result ≡ lower_of (lower_of first second) (lower_of third last) }
{
    let below = lower(first, second);
    lower(below, lower(third, last))
}

/// An operator between operands.
pub fn binary_made(
    alloc: Global,
    op: Work,
    around: Around,
    a: Answer,
    b: Answer,
) -> Result<Answer, NoMemory>
    ensures { IfOk result (λ r. r ≡ spec.binary_made op around.context around.signed around.wide around.fault around.second a b) }
{
    let value = worked(alloc, op, around.signed, &a.value, &b.value)?;
    let here = tested(op, is_sound(around.fault, &b), around.second, &a, &b);
    Ok(Answer {
        value: fit(alloc, around.context, &value)?,
        reads: a.reads || b.reads,
        fault: lowest_of_four(a.fault, b.fault, here, where_wide(around.wide)),
    })
}

fn chosen_bits(test: &Bits, yes: Bits, no: Bits) -> Bits
    ensures { result ≡ chosen test.now yes no }
{
    if some_set(test) { yes } else { no }
}

/// The answer of a choice: that of the part which its test takes, and the lowest fault of all three (5.1.13).
pub fn choice_made(
    alloc: Global,
    context: Size,
    test: Answer,
    yes: Answer,
    no: Answer,
) -> Result<Answer, NoMemory>
    ensures { IfOk result (λ r. r ≡ spec.choice_made context test yes no) }
{
    let reads = test.reads || yes.reads || no.reads;
    let fault = lower(test.fault, lower(yes.fault, no.fault));
    let value = chosen_bits(&test.value, yes.value, no.value);
    Ok(Answer {
        value: fit(alloc, context, &value)?,
        reads,
        fault,
    })
}

/// The answer of a system function: a sign given or taken, or the ceiling of a logarithm, which is no constant of what is read.
pub fn system_made(
    alloc: Global,
    function: SystemFunction,
    context: Size,
    a: Answer,
) -> Result<Answer, NoMemory>
    ensures { IfOk result (λ r. r ≡ spec.system_made function context a) }
{
    match function {
        SystemFunction::Signed | SystemFunction::Unsigned => brought(alloc, context, a),
        SystemFunction::CeilingLog => {
            let log = ceiling_log(alloc, &a.value)?;
            let value = Bits::from_u128(alloc, log as u128, 32)?;
            Ok(Answer {
                value: fit(alloc, context, &value)?,
                reads: a.reads,
                fault: lower(a.fault, where_true(a.reads, Code::NotConstant)),
            })
        }
    }
}

/// No bits, before the first part of a concatenation.
pub fn nothing(alloc: Global) -> Joined
    ensures { result ≡ spec.nothing }
{
    Joined {
        bits: Items::new(alloc),
        reads: false,
        fault: None,
    }
}

/// Puts bits behind others, the highest first.
fn put(mut bits: Items<bool>, value: &Bits) -> Result<Items<bool>, NoMemory>
    ensures { IfOk result (λ r. r ≡ bits ++ reverse value.now) }
{
    for turn in 0..value.len() {
        bits.push(value.get(value.len() - 1 - turn))?;
    }
    Ok(bits)
}

/// A part of so many bits behind others.
pub fn join(before: Joined, length: u32, a: Answer) -> Result<Joined, NoMemory>
    ensures { IfOk result (λ r. r ≡ spec.joined before length a) }
{
    let reads = before.reads || a.reads;
    let fault = lower(before.fault, a.fault);
    let mut bits = before.bits;
    if length != 0 {
        bits = put(bits, &a.value)?;
    }
    Ok(Joined { bits, reads, fault })
}

fn copies(count: Option<i64>, length: usize) -> usize
    ensures { result ≡ spec.copies count length }
{
    match count {
        None => 1,
        Some(number) => {
            if number < 0 {
                1
            } else {
                copies_of(number as u64, length)
            }
        }
    }
}

fn copies_of(count: u64, length: usize) -> usize
    ensures { result ≡ (if nat_lt 65536 (count * length) then 1 else count) }
{
    match count.checked_mul(length as u64) {
        None => 1,
        Some(product) => { if product > 65_536 { 1 } else { count as usize } }
    }
}

/// The bit at a place, counted from the lowest, of bits of which the highest comes first.
#[tactic(auto, using(crate::proofs::BitLaws::top_bit_is))]
fn top_bit(bits: &[bool], by_sign: bool, at: usize) -> bool
    ensures { result ≡ top_bit_of by_sign (reverse bits.now) at }
{
    if at < bits.len() {
        bits[bits.len() - 1 - at]
    } else {
        fill_of(bits, by_sign)
    }
}

/// What the bits above are.
#[tactic(auto, using(crate::proofs::BitLaws::first_is_sign))]
fn fill_of(bits: &[bool], by_sign: bool) -> bool
    ensures { result ≡ (by_sign && sign_of (reverse bits.now)) }
{
    match bits {
        [] => false,
        [first, ..] => by_sign && *first,
    }
}

/// The bits, of which the highest comes first, brought to a length.
pub fn from_highest(
    alloc: Global,
    bits: &[bool],
    by_sign: bool,
    length: u32,
) -> Result<Bits, NoMemory>
    ensures { IfOk result (λ r. r ≡ extended by_sign (room_of length) (reverse bits.now)) }
{
    let mut out = Bits::zeros(alloc, room(length))?;
    for at in 0..out.len() {
        out.set(at, top_bit(bits, by_sign, at));
    }
    Ok(out)
}

/// The answer of a concatenation of parts (5.1.14).
pub fn concat_made(alloc: Global, context: Size, all: Joined) -> Result<Answer, NoMemory>
    ensures { IfOk result (λ r. r ≡ spec.concat_made context all) }
{
    Ok(Answer {
        value: from_highest(alloc, all.bits.as_slice(), context.signed, context.length)?,
        reads: all.reads,
        fault: all.fault,
    })
}

fn repeated_bits(alloc: Global, count: usize, bits: &[bool]) -> Result<Items<bool>, NoMemory>
    ensures { IfOk result (λ r. r ≡ repeated count bits.now) }
{
    let mut all = Items::new(alloc);
    for turn in 0..count {
        all = behind(all, bits)?;
    }
    Ok(all)
}

fn behind(mut all: Items<bool>, bits: &[bool]) -> Result<Items<bool>, NoMemory>
    ensures { IfOk result (λ r. r ≡ all ++ bits.now) }
{
    for bit in bits {
        all.push(*bit)?;
    }
    Ok(all)
}

/// The answer of a concatenation that is repeated (5.1.14).
pub fn repeat_made(
    alloc: Global,
    count: Option<i64>,
    fault: Option<Code>,
    context: Size,
    all: Joined,
) -> Result<Answer, NoMemory>
    ensures { IfOk result (λ r. r ≡ spec.repeat_made count fault context all) }
{
    let count = copies(count, all.bits.len());
    let bits = repeated_bits(alloc, count, all.bits.as_slice())?;
    Ok(Answer {
        value: from_highest(alloc, bits.as_slice(), context.signed, context.length)?,
        reads: all.reads,
        fault: lower(fault, all.fault),
    })
}

/// The answer of a call, which is no constant: it reads, and has the faults of its arguments.
pub fn call_made(alloc: Global, context: Size, all: Joined) -> Result<Answer, NoMemory>
    ensures { IfOk result (λ r. r ≡ spec.call_made context all) }
{
    Ok(Answer {
        value: zeros(alloc, context)?,
        reads: true,
        fault: all.fault,
    })
}

fn is_kind(kind: NameKind, other: NameKind) -> bool
    ensures { result ≡ is_of_kind kind other }
{
    kind == other
}

fn value_bits(alloc: Global, value: Option<&Const>) -> Result<Bits, NoMemory>
    ensures { IfOk result (λ r. r ≡ spec.value_bits (option_copied value.entry)) }
{
    match value {
        None => Bits::zeros(alloc, 1),
        Some(value) => Bits::copy(alloc, &value.bits),
    }
}

const BIT: Size = Size {
    length: 1,
    signed: false,
};

/// A name: a constant has its value, a signal is read.
pub fn leaf(
    alloc: Global,
    entry: Option<&SizeEntry>,
    value: Option<&Const>,
) -> Result<Answer, NoMemory>
    ensures { IfOk result (λ r. r ≡ spec.leaf (option_copied entry.entry) (option_copied value.entry)) }
{
    match entry {
        None => Ok(Answer {
            value: zeros(alloc, BIT)?,
            reads: false,
            fault: None,
        }),
        Some(entry) => {
            let size = Size {
                length: entry.length,
                signed: entry.signed,
            };
            if is_kind(entry.kind, NameKind::Constant) {
                let bits = value_bits(alloc, value)?;
                Ok(Answer {
                    value: fit(alloc, size, &bits)?,
                    reads: false,
                    fault: None,
                })
            } else {
                Ok(Answer {
                    value: zeros(alloc, size)?,
                    reads: !is_kind(entry.kind, NameKind::Function),
                    fault: None,
                })
            }
        }
    }
}

fn select_low(entry: Option<&SizeEntry>, place: Place) -> Whole
    ensures { result.at ≡ spec.select_low (option_copied entry.entry) place }
{
    match entry {
        None => Whole { at: 0 },
        Some(entry) => low_at(aim_of(entry, place.way), place.at),
    }
}

/// A select of a name.
pub fn select_made(
    alloc: Global,
    entry: Option<&SizeEntry>,
    own: Size,
    wide: bool,
    a: Answer,
    place: Place,
) -> Result<Answer, NoMemory>
    ensures { IfOk result (λ r. r ≡ spec.select_made (option_copied entry.entry) own wide a place) }
{
    let mut out = Bits::zeros(alloc, room(own.length))?;
    Bits::select_into(&a.value, select_low(entry, place).at, &mut out);
    let below = lower(a.fault, place.fault);
    Ok(Answer {
        value: out,
        reads: a.reads || place.reads,
        fault: lower(below, where_true(wide, Code::WideArithmetic)),
    })
}
