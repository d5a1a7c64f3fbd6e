ghost use Rattle.std.specs.Prelude.{◌≡◌, ◌<◌, ◌^◌, All, ℕ, length, map, slice_index_or, IfOk, OnOk};
ghost use Rattle.clock_chains.specs.Chains.{AreTold};
ghost use Rattle.clock_chains.specs.Links as links;

use bits_core::{Items, NoMemory};
use item_order::{Links, Span, SpanList, slice};
use std::alloc::Global;

/// An item that gives the signal `to` the value of the signal `from`; both have one bit.
#[derive(Clone, Copy, Debug, PartialEq, Eq)]
pub struct Step {
    pub from: u32,
    pub to: u32,
}

/// The bit of a signal.
fn span(signal: u32) -> Span
    requires { signal < 2 ^ 31 }
    ensures { result ≡ links.span signal }
{
    Span {
        from: signal,
        to: signal + 1,
    }
}

fn spans(alloc: Global, signals: &[u32]) -> Result<SpanList, NoMemory>
    requires { All (λ k. k < 2 ^ 31) signals.now }
    ensures { IfOk result (λ r. r ≡ map links.span signals.now) }
{
    let mut all = Items::new(alloc);
    for signal in signals {
        all.push(span(*signal))?;
    }
    Ok(all)
}

fn own_drivers(alloc: Global, count: usize) -> Result<Vec<Option<u32>>, NoMemory>
    requires { count < 2 ^ 31 }
    ensures { IfOk result (λ r. r.items ≡ links.own_drivers count) }
{
    let mut all = Vec::new(alloc);
    for at in 0..count {
        all.push(Some(at as u32))?;
    }
    Ok(all)
}

fn no_reads(alloc: Global, count: usize) -> Result<Vec<SpanList>, NoMemory>
    ensures { IfOk result (λ r. r.items ≡ links.no_reads count) }
{
    let mut all = Vec::new(alloc);
    for at in 0..count {
        all.push(Items::new(alloc))?;
    }
    Ok(all)
}

fn add_step(reads: &mut Vec<SpanList>, step: Step) -> Result<(), NoMemory>
    requires from { step.from < length reads.old.items }
    requires to { step.to < 2 ^ 31 }
    ensures { OnOk result (reads.new.items ≡ links.with_span reads.old.items step.from (links.span step.to)) }
{
    reads[step.from as usize].push(span(step.to))?;
    Ok(())
}

/// What each signal leads to.
fn reads_of(alloc: Global, count: usize, steps: &[Step]) -> Result<Vec<SpanList>, NoMemory>
    requires few { count < 2 ^ 31 }
    requires steps { All (λ s. (s.from < count) × (s.to < count)) steps.now }
    ensures { IfOk result (λ r. r.items ≡ links.with_steps (links.no_reads count) steps.now) }
{
    let mut reads = no_reads(alloc, count)?;
    for step in steps {
        add_step(&mut reads, *step)?;
    }
    Ok(reads)
}

/// Of each of `count` signals, whether a listed clock leads to it through steps, or it is one. Linear in signals and steps.
pub fn clocked(
    alloc: Global,
    count: usize,
    steps: &[Step],
    clocks: &[u32],
) -> Result<Vec<bool>, NoMemory>
    requires few { count < 2 ^ 31 }
    requires steps { All (λ s. (s.from < count) × (s.to < count)) steps.now }
    requires clocks { All (λ k. k < count) clocks.now }
    ensures { IfOk result (λ r. AreTold steps.now clocks.now count r.items) }
{
    let links = Links {
        reads: reads_of(alloc, count, steps)?,
        drivers: own_drivers(alloc, count)?,
    };
    let start = spans(alloc, clocks)?;
    let members = slice(alloc, &links, start.as_slice())?;
    let told = marked(alloc, count, members.as_slice())?;
    Ok(told)
}

/// Marks at these places.
fn marked(alloc: Global, count: usize, places: &[u32]) -> Result<Vec<bool>, NoMemory>
    requires { All (λ k. k < count) places.now }
    ensures { IfOk result (λ r. r.items ≡ links.marks count places.now) }
{
    let mut marks = Vec::from_elem(alloc, false, count)?;
    for place in places {
        marks[*place as usize] = true;
    }
    Ok(marks)
}
