// The first that prints like an earlier one.
ghost use Rattle.std.specs.Prelude.{◌≡◌, ◌<◌, ◌≤◌, true, false, map, length, IfOk, MatchOption};
ghost use Rattle.std.specs.List.{list_all};
ghost use Rattle.design_names.specs.Alike.{IsBetween, IsEarliest, IsFirstAlike, IsFront, IsIndexOf, IsMeeting, Stands, is_bit_of, is_spanned, paths, paths_of};
ghost use Rattle.design_core.specs.Wellformed.{print_apart, scopes_apart};
ghost use Rattle.design_core.specs.declared.signals.Signal.{Signal};
ghost use Rattle.design_names.specs.Brackets.{has_bracket, in_brackets};
ghost use Rattle.design_names.specs.Texts.{listed};

use crate::brackets::{Parts, index_of, parts_of};
use crate::texts::{Texts, front};
use bits_core::NoMemory;
use design_core::{Scope, Signal};
use std::alloc::Global;

/// The paths of signals.
fn signal_paths<'a>(alloc: Global, signals: &'a [Signal]) -> Result<Vec<&'a [u8]>, NoMemory>
    ensures { IfOk result (λ r. map (λ t. t.now) r.items ≡ paths signals.now) }
{
    let mut all = Vec::new(alloc);
    for at in 0..signals.len() {
        all.push(signals[at].path.as_slice())?;
    }
    Ok(all)
}

/// Whether an index is between the bounds of a signal.
fn is_between(signal: &Signal, index: i64) -> bool
    ensures yes { result ≡ true → IsBetween signal.now.high signal.now.low index }
    ensures no { result ≡ false → IsBetween signal.now.high signal.now.low index → ⊥ }
{
    if signal.high < signal.low {
        signal.high <= index && index <= signal.low
    } else {
        signal.low <= index && index <= signal.high
    }
}

/// Whether a text is the index of one of a signal's bits.
fn is_index(signal: &Signal, text: &[u8]) -> bool
    requires { is_spanned signal.now ≡ true }
    ensures yes { result ≡ true → IsIndexOf signal.now text.now }
    ensures no { result ≡ false → IsIndexOf signal.now text.now → ⊥ }
{
    match index_of(text) {
        None => false,
        Some(z) => signal.ranged && is_between(signal, z),
    }
}

/// The later of a signal and the one of whose bit its path, in two parts, is the text.
fn meeting_at(signals: &[Signal], texts: &Texts, at: usize, parts: Parts) -> usize
    requires spanned { list_all is_spanned signals.now ≡ true }
    requires is_front { IsFront (listed texts.now) (paths signals.now) }
    requires path { (x : Signal) → Stands signals.now at x → (x.ranged ≡ false) × (x.path ≡ in_brackets parts.before.now parts.index.now) }
    requires is_plain { has_bracket parts.index.now ≡ false }
    requires within { at < length (listed texts.now) }
    ensures small { result ≤ length (listed texts.now) }
    ensures meets { IsMeeting signals.now (length (listed texts.now)) at result }
{
    match texts.place(parts.before) {
        None => texts.len(),
        Some(place) => {
            if is_index(&signals[place], parts.index) {
                at.max(place)
            } else {
                texts.len()
            }
        }
    }
}

/// The later of a signal and the one of whose bit its path is the text.
fn meeting(signals: &[Signal], texts: &Texts, at: usize) -> usize
    requires spanned { list_all is_spanned signals.now ≡ true }
    requires is_front { IsFront (listed texts.now) (paths signals.now) }
    requires within { at < length (listed texts.now) }
    ensures small { result ≤ length (listed texts.now) }
    ensures meets { IsMeeting signals.now (length (listed texts.now)) at result }
{
    let x = &signals[at];
    if x.ranged {
        return texts.len();
    }
    match parts_of(x.path.as_slice()) {
        None => texts.len(),
        Some(parts) => meeting_at(signals, texts, at, parts),
    }
}

/// The first place at which a signal stands that prints like a bit of an earlier one, or a bit of which prints like an earlier one.
fn earliest(signals: &[Signal], texts: &Texts) -> usize
    requires spanned { list_all is_spanned signals.now ≡ true }
    requires is_front { IsFront (listed texts.now) (paths signals.now) }
    ensures { IsEarliest signals.now (length (listed texts.now)) (length (listed texts.now)) result }
{
    let mut end = texts.len();
    for at in 0..texts.len() {
        end = end.min(meeting(signals, texts, at));
    }
    end
}

/// The first signal that prints like an earlier one, or has a bit that does; none where all print apart.
/// Linear in the bytes of the paths, whatever the lengths of the signals. Fails where memory is wanting.
pub fn first_alike(alloc: Global, signals: &[Signal]) -> Result<Option<usize>, NoMemory>
    requires { list_all is_spanned signals.now ≡ true }
    ensures { IfOk result (IsFirstAlike print_apart signals.now) }
{
    let all = signal_paths(alloc, signals)?;
    let texts = front(alloc, all.as_slice())?;
    let end = earliest(signals, &texts);
    if end < signals.len() {
        return Ok(Some(end));
    }
    Ok(None)
}

/// The paths of scopes.
fn scope_paths<'a>(alloc: Global, scopes: &'a [Scope]) -> Result<Vec<&'a [u8]>, NoMemory>
    ensures { IfOk result (λ r. map (λ t. t.now) r.items ≡ paths_of scopes.now) }
{
    let mut all = Vec::new(alloc);
    for at in 0..scopes.len() {
        all.push(scopes[at].path.as_slice())?;
    }
    Ok(all)
}

/// The first scope that prints like an earlier one; none where all print apart. Linear in the bytes of the paths. Fails where memory is wanting.
pub fn first_scope_alike(alloc: Global, scopes: &[Scope]) -> Result<Option<usize>, NoMemory>
    ensures { IfOk result (IsFirstAlike scopes_apart scopes.now) }
{
    let all = scope_paths(alloc, scopes)?;
    let texts = front(alloc, all.as_slice())?;
    let end = texts.len();
    if end < scopes.len() {
        return Ok(Some(end));
    }
    Ok(None)
}
