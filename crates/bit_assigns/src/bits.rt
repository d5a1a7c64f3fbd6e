ghost use Rattle.std.specs.Prelude.{◌≡◌, pos, ◌+ℤ◌, ◌++◌, OnOk};
ghost use Rattle.design_core.specs.Core.{spot};
ghost use Rattle.bit_assigns.specs.Bits.{base_targets, extended_sources, filling, selected_sources, source_at, source_or, source_or_int, span_sources, span_targets, target_at};

use bits_core::{Items, NoMemory};
use design_core::DBase;

/// A bit of a signal: the signal's number and length, and the bit's place, 0 for the lowest.
#[derive(Clone, Copy, Debug, PartialEq, Eq)]
pub struct SignalBit {
    pub signal: u32,
    pub length: u32,
    pub bit: u32,
}

/// What a bit of a right side is: a constant, or a bit of a signal.
#[derive(Clone, Copy, Debug, PartialEq, Eq)]
pub enum Source {
    Known(bool),
    Bit(SignalBit),
}

/// Where a bit of a left side lies: at a bit of a signal, or outside of the signal that is named, where a write has no effect (IEEE 1364-2005, 5.2.1).
#[derive(Clone, Copy, Debug, PartialEq, Eq)]
pub enum Target {
    Bit(SignalBit),
    Outside(u32),
}

/// The bits of a right side, the lowest first.
pub type SourceList = Items<Source>;

/// The bits of a left side, the lowest first.
pub type TargetList = Items<Target>;

/// The place that lies so many above another, if the vector has it.
fn place_in(size: u32, low: i64, at: u32) -> Option<u32>
    ensures { result ≡ spot size (low +ℤ pos at) }
{
    let place = low.checked_add(i64::from(at))?;
    if place >= 0 && place < i64::from(size) {
        Some(place as u32)
    } else {
        None
    }
}

fn source_at(signal: u32, length: u32, place: Option<u32>) -> Source
    ensures { result ≡ source_at signal length place }
{
    match place {
        Some(bit) => Source::Bit(SignalBit {
            signal,
            length,
            bit,
        }),
        None => Source::Known(false),
    }
}

fn target_at(signal: u32, length: u32, place: Option<u32>) -> Target
    ensures { result ≡ target_at signal length place }
{
    match place {
        Some(bit) => Target::Bit(SignalBit {
            signal,
            length,
            bit,
        }),
        None => Target::Outside(signal),
    }
}

/// Bits of a signal of some length are put at the end of a list: so many from a place on.
pub fn push_span_sources(
    signal: u32,
    size: u32,
    low: i64,
    length: u32,
    all: &mut Vec<Source>,
) -> Result<(), NoMemory>
    ensures { OnOk result (all.new.items ≡ all.old.items ++ span_sources signal size low length) }
{
    for at in 0..length {
        all.push(source_at(signal, size, place_in(size, low, at)))?;
    }
    Ok(())
}

fn push_span_targets(
    signal: u32,
    size: u32,
    low: i64,
    length: u32,
    all: &mut Vec<Target>,
) -> Result<(), NoMemory>
    ensures { OnOk result (all.new.items ≡ all.old.items ++ span_targets signal size low length) }
{
    for at in 0..length {
        all.push(target_at(signal, size, place_in(size, low, at)))?;
    }
    Ok(())
}

/// The same for a left side, on which a local has no bits.
pub fn push_base_targets(
    base: DBase,
    size: u32,
    low: i64,
    length: u32,
    all: &mut Vec<Target>,
) -> Result<(), NoMemory>
    ensures { OnOk result (all.new.items ≡ all.old.items ++ base_targets base size low length) }
{
    match base {
        DBase::Signal(signal) => push_span_targets(signal, size, low, length, all),
        DBase::Local(_) => Ok(()),
    }
}

/// The bit at a place, 0 where there is none.
pub fn source_or(bits: &[Source], at: usize) -> Source
    ensures { result ≡ source_or bits.now at }
{
    match bits.get(at) {
        Some(bit) => *bit,
        None => Source::Known(false),
    }
}

/// The bit that lies so many above a place, which may be below the lowest; 0 where there is none.
fn source_above(bits: &[Source], low: i64, at: u32) -> Source
    ensures { result ≡ source_or_int bits.now (low +ℤ pos at) }
{
    match low.checked_add(i64::from(at)) {
        Some(place) => {
            if place < 0 {
                return Source::Known(false);
            }
            source_or(bits, place as usize)
        }
        None => Source::Known(false),
    }
}

/// Bits from a place on, so many, are put at the end of a list.
pub fn push_selected(
    bits: &[Source],
    low: i64,
    length: u32,
    all: &mut Vec<Source>,
) -> Result<(), NoMemory>
    ensures { OnOk result (all.new.items ≡ all.old.items ++ selected_sources low length bits.now) }
{
    for at in 0..length {
        all.push(source_above(bits, low, at))?;
    }
    Ok(())
}

/// What stands above the highest bit where bits are extended.
fn filling(bits: &[Source], keeps: bool) -> Source
    ensures { result ≡ filling keeps bits.now }
{
    if keeps && !bits.is_empty() {
        bits[bits.len() - 1]
    } else {
        Source::Known(false)
    }
}

/// Bits brought to a length are put at the end of a list.
pub fn push_extended(
    bits: &[Source],
    keeps: bool,
    length: u32,
    all: &mut Vec<Source>,
) -> Result<(), NoMemory>
    ensures { OnOk result (all.new.items ≡ all.old.items ++ extended_sources keeps length bits.now) }
{
    let above = filling(bits, keeps);
    for at in 0..length {
        let place = at as usize;
        let bit = if place < bits.len() {
            bits[place]
        } else {
            above
        };
        all.push(bit)?;
    }
    Ok(())
}
