ghost use Rattle.std.specs.Prelude.{◌≡◌, ◌<◌, [], ◌∷◌, ◌++◌, length, slice_index_or};
ghost use Rattle.design_core.specs.Formed.{base_length};
ghost use Rattle.design_core.specs.Terms.{lengths};
ghost use Rattle.design_core.specs.Wellformed.{signal_lengths};
ghost use Rattle.tree_weights.specs.Spent.{IsSpent};
ghost use Rattle.tree_weights.specs.Rounds.{lengths_in};

use design_core::{DBase, DFunction, DLocal, Signal};

/// The locals of the function round a tree: its result, inputs and locals. Outside functions there are none.
#[derive(Clone, Copy)]
pub struct Locals<'a> {
    pub result: Option<u32>,
    pub inputs: &'a [DLocal],
    pub locals: &'a [DLocal],
}

/// The locals of a function.
pub fn locals_of(function: &DFunction) -> Locals
    ensures { lengths_in result ≡ function.now.length ∷ (lengths function.now.inputs ++ lengths function.now.locals) }
{
    Locals {
        result: Some(function.length),
        inputs: function.inputs.as_slice(),
        locals: function.locals.as_slice(),
    }
}

/// No locals, as outside functions.
pub fn no_locals() -> Locals<'static>
    ensures { lengths_in result ≡ [] }
{
    Locals {
        result: None,
        inputs: &[],
        locals: &[],
    }
}

fn length_at(locals: &[DLocal], at: usize) -> u32
    ensures { result ≡ slice_index_or (lengths locals.now) at 0 }
{
    match locals.get(at) {
        Some(local) => local.length,
        None => 0,
    }
}

/// The length of an input or a local, by its place behind the result.
fn length_behind(round: Locals, at: usize) -> u32
    ensures { result ≡ slice_index_or (lengths round.entry.inputs.now ++ lengths round.entry.locals.now) at 0 }
{
    let inputs = round.inputs.len();
    if at < inputs {
        length_at(round.inputs, at)
    } else {
        length_at(round.locals, at - inputs)
    }
}

fn local_length(round: Locals, at: usize) -> u32
    ensures { result ≡ slice_index_or (lengths_in round.entry) at 0 }
{
    match round.result {
        None => length_behind(round, at),
        Some(length) => {
            if at == 0 {
                length
            } else {
                length_behind(round, at - 1)
            }
        }
    }
}

fn signal_length(signals: &[Signal], at: usize) -> u32
    ensures { result ≡ slice_index_or (signal_lengths signals.now) at 0 }
{
    match signals.get(at) {
        Some(signal) => signal.length,
        None => 0,
    }
}

/// The length of what a left side names; 0 where there is no such signal or local.
pub fn length_of(base: DBase, signals: &[Signal], round: Locals) -> u32
    ensures { result ≡ base_length (signal_lengths signals.now) (lengths_in round.entry) base }
{
    match base {
        DBase::Signal(s) => signal_length(signals, s as usize),
        DBase::Local(k) => local_length(round, k as usize),
    }
}

/// An amount is taken from what there is room for.
pub fn spend(amount: u128, room: u64) -> Option<u64>
    ensures { IsSpent amount room result }
{
    if amount > u128::from(room) {
        None
    } else {
        Some(room - amount as u64)
    }
}
