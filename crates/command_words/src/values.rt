// The forms of values.
ghost use Rattle.std.specs.Prelude.{◌≡◌, IfOk, map, option_map};
ghost use Rattle.std.specs.List.{list_all};
ghost use Rattle.command_words.specs.Seen.{Gives};
ghost use Rattle.command_words.specs.Values as spec;

use crate::cut::{cut_first, cut_last, parts};
use crate::options::{PinWord, ResetWord};
use crate::stop::WordsStop;
use bits_core::{Items, Name, NameList, NoMemory};
use std::alloc::Global;

// The longest number has so many digits.
const MOST_DIGITS: usize = 9;

/// A number of 1 to 9 decimal digits, from low to high.
pub fn number_in(low: u32, high: u32, text: &[u8]) -> Option<u32>
    ensures { result ≡ spec.number_in low high text.now }
{
    if text.is_empty() || text.len() > MOST_DIGITS {
        return None;
    }
    let mut number = 0u32;
    for (i, byte) in text.iter().enumerate() {
        if !byte.is_ascii_digit() {
            return None;
        }
        number = 10 * number + (*byte - b'0') as u32;
    }
    if low <= number && number <= high {
        Some(number)
    } else {
        None
    }
}

/// The number of an option, or the usual one where the command does not have it.
pub fn number_or(usual: u32, low: u32, high: u32, text: Option<&str>) -> Result<u32, WordsStop>
    ensures { Gives (λ n. n) (spec.number_or usual low high (option_map (λ t. t.now) text.entry)) result }
{
    let Some(text) = text else {
        return Ok(usual);
    };
    number_in(low, high, text.as_bytes()).ok_or(WordsStop::BadWords)
}

/// The name that a text is.
pub fn name_of(alloc: Global, text: &[u8]) -> Result<Name, NoMemory>
    ensures { IfOk result (λ n. n ≡ text.now) }
{
    Ok(Items::of(Vec::from_slice(alloc, text)?))
}

fn are_not_empty(parts: &[&[u8]]) -> bool
    ensures { result ≡ list_all spec.is_some_text (map (λ p. p.now) parts.now) }
{
    for part in parts {
        if part.is_empty() {
            return false;
        }
    }
    true
}

fn names_of(alloc: Global, parts: &[&[u8]]) -> Result<NameList, NoMemory>
    ensures { IfOk result (λ ns. ns ≡ map (λ p. p.now) parts.now) }
{
    let mut names = Items::new(alloc);
    for part in parts {
        names.push(name_of(alloc, part)?)?;
    }
    Ok(names)
}

/// The names of a list, none where it is not given. Linear in the text.
pub fn list_or_none(alloc: Global, text: Option<&str>) -> Result<NameList, WordsStop>
    ensures { Gives (λ ns. ns) (spec.list_or_none (option_map (λ t. t.now) text.entry)) result }
{
    let Some(text) = text else {
        return Ok(Items::new(alloc));
    };
    let parts = parts(alloc, text.as_bytes(), b',')?;
    if !are_not_empty(parts.as_slice()) {
        return Err(WordsStop::BadWords);
    }
    Ok(names_of(alloc, parts.as_slice())?)
}

fn are_macro_bytes(name: &[u8]) -> bool
    ensures { result ≡ list_all spec.is_macro_byte name.now }
{
    for byte in name {
        if !byte.is_ascii_alphanumeric() && *byte != b'_' {
            return false;
        }
    }
    true
}

fn is_macro_name(name: &[u8]) -> bool
    ensures { result ≡ spec.is_macro_name name.now }
{
    !name.is_empty() && are_macro_bytes(name)
}

fn are_macro_names(parts: &[&[u8]]) -> bool
    ensures { result ≡ list_all spec.is_macro_name (map (λ p. p.now) parts.now) }
{
    for part in parts {
        if !is_macro_name(part) {
            return false;
        }
    }
    true
}

/// The macros of a list, none where it is not given. Linear in the text.
pub fn macros_or_none(alloc: Global, text: Option<&str>) -> Result<NameList, WordsStop>
    ensures { Gives (λ ns. ns) (spec.macros_or_none (option_map (λ t. t.now) text.entry)) result }
{
    let Some(text) = text else {
        return Ok(Items::new(alloc));
    };
    let parts = parts(alloc, text.as_bytes(), b',')?;
    if !are_macro_names(parts.as_slice()) {
        return Err(WordsStop::BadWords);
    }
    Ok(names_of(alloc, parts.as_slice())?)
}

// The asserted value and the cycles, `V,N`.
fn asserted_and_cycles(text: &[u8]) -> Option<(bool, u32)>
    ensures { result ≡ spec.asserted_and_cycles text.now }
{
    match text {
        [b'0', b',', digits @ ..] => Some((false, number_in(0, 64, digits)?)),
        [b'1', b',', digits @ ..] => Some((true, number_in(0, 64, digits)?)),
        _ => None,
    }
}

// What a reset was given, `NAME=V,N`.
fn reset_of(alloc: Global, text: &[u8]) -> Result<ResetWord, WordsStop>
    ensures { Gives (λ r. r) (spec.reset_of text.now) result }
{
    let Some((name, rest)) = cut_last(text, b'=') else {
        return Err(WordsStop::BadWords);
    };
    if name.is_empty() {
        return Err(WordsStop::BadWords);
    }
    let Some((asserted, cycles)) = asserted_and_cycles(rest) else {
        return Err(WordsStop::BadWords);
    };
    Ok(ResetWord {
        name: name_of(alloc, name)?,
        asserted,
        cycles,
    })
}

/// What a reset was given, if it was.
pub fn reset_or_none(alloc: Global, text: Option<&str>) -> Result<Option<ResetWord>, WordsStop>
    ensures { Gives (λ r. r) (spec.reset_or_none (option_map (λ t. t.now) text.entry)) result }
{
    let Some(text) = text else {
        return Ok(None);
    };
    Ok(Some(reset_of(alloc, text.as_bytes())?))
}

// What a pin was given, `signal=value`.
fn pin_of(alloc: Global, text: &[u8]) -> Result<PinWord, WordsStop>
    ensures { Gives (λ p. p) (spec.pin_of text.now) result }
{
    let Some((signal, value)) = cut_first(text, b'=') else {
        return Err(WordsStop::BadWords);
    };
    if signal.is_empty() {
        return Err(WordsStop::BadWords);
    }
    Ok(PinWord {
        signal: name_of(alloc, signal)?,
        value: name_of(alloc, value)?,
    })
}

// What pins were given.
fn pins_of(alloc: Global, parts: &[&[u8]]) -> Result<Items<PinWord>, WordsStop>
    ensures { Gives (λ ps. ps) (spec.pins_of (map (λ p. p.now) parts.now)) result }
{
    let mut pins = Items::new(alloc);
    for part in parts {
        pins.push(pin_of(alloc, part)?)?;
    }
    Ok(pins)
}

/// What pins were given, none where there are none. Linear in the text.
pub fn pins_or_none(alloc: Global, text: Option<&str>) -> Result<Items<PinWord>, WordsStop>
    ensures { Gives (λ ps. ps) (spec.pins_or_none (option_map (λ t. t.now) text.entry)) result }
{
    let Some(text) = text else {
        return Ok(Items::new(alloc));
    };
    let parts = parts(alloc, text.as_bytes(), b',')?;
    pins_of(alloc, parts.as_slice())
}
