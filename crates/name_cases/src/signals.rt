ghost use Rattle.std.specs.Prelude.{◌≡◌, true, IfOk};
ghost use Rattle.std.specs.List.{list_all};
ghost use Rattle.std.specs.Option.{IfSome};
ghost use Rattle.design_core.specs.Wellformed.{is_bound, span_of};
ghost use Rattle.design_names.specs.Alike.{is_spanned};

use bits_core::{Name, NoMemory};
use design_core::{Scope, Signal};
use std::alloc::Global;

fn name(alloc: Global, text: &str) -> Result<Name, NoMemory> {
    let mut bytes = Vec::new(alloc);
    bytes.extend_from_slice(text.as_bytes())?;
    Ok(Name::of(bytes))
}

// How many bits the bounds span.
fn span(high: i16, low: i16) -> u32
    ensures { result ≡ span_of high low }
{
    let more = if high < low {
        i64::from(low) - i64::from(high)
    } else {
        i64::from(high) - i64::from(low)
    };
    more as u32 + 1
}

fn is_small(bound: i16) -> i64
    ensures same { result ≡ bound }
    ensures small { is_bound result ≡ true }
{
    i64::from(bound)
}

fn vector(alloc: Global, path: &str, high: i16, low: i16) -> Result<Signal, NoMemory>
    ensures { IfOk result (λ r. is_spanned r ≡ true) }
{
    Ok(Signal {
        scope: 0,
        name: name(alloc, path)?,
        path: name(alloc, path)?,
        word: None,
        length: span(high, low),
        signed: false,
        ranged: true,
        high: is_small(high),
        low: is_small(low),
    })
}

fn wire(alloc: Global, path: &str) -> Result<Signal, NoMemory>
    ensures { IfOk result (λ r. is_spanned r ≡ true) }
{
    Ok(Signal {
        scope: 0,
        name: name(alloc, path)?,
        path: name(alloc, path)?,
        word: None,
        length: 1,
        signed: false,
        ranged: false,
        high: 0,
        low: 0,
    })
}

fn bounds(text: &str) -> Option<(i16, i16)> {
    let (low, high) = text.split_once(':')?;
    Some((high.parse::<i16>().ok()?, low.parse::<i16>().ok()?))
}

fn signal(alloc: Global, word: &str) -> Result<Option<Signal>, NoMemory>
    ensures { IfOk result (λ r. IfSome r (λ x. is_spanned x ≡ true)) }
{
    match word.split_once('@') {
        None => Ok(Some(wire(alloc, word)?)),
        Some((path, text)) => match bounds(text) {
            None => Ok(None),
            Some((high, low)) => Ok(Some(vector(alloc, path, high, low)?)),
        },
    }
}

/// The signals that the words name, none where a word names none.
#[tactic(auto, using(crate::proofs::NameLaws::all_pushed))]
pub fn signals(alloc: Global, text: &str) -> Result<Option<Vec<Signal>>, NoMemory>
    ensures { IfOk result (λ r. IfSome r (λ xs. list_all is_spanned xs.items ≡ true)) }
{
    let mut all = Vec::new(alloc);
    for word in text.split_whitespace() {
        match signal(alloc, word)? {
            None => return Ok(None),
            Some(x) => all.push(x)?,
        }
    }
    Ok(Some(all))
}

/// Scopes with these paths.
pub fn scopes(alloc: Global, text: &str) -> Result<Vec<Scope>, NoMemory> {
    let mut all = Vec::new(alloc);
    for word in text.split_whitespace() {
        all.push(Scope {
            parent: None,
            name: name(alloc, word)?,
            path: name(alloc, word)?,
            module: name(alloc, word)?,
        })?;
    }
    Ok(all)
}
