ghost use Rattle.std.specs.Prelude.{◌≡◌, [], map, IfOk, if◌then◌else◌};
ghost use Rattle.std.specs.Option.{option_copied, option_map};
ghost use Rattle.std.specs.Prelude.{slice_get};
ghost use Rattle.vl_names.specs.Names.{listed};
ghost use Rattle.vl_items.specs.Declarations.{is_among, added};
ghost use Rattle.vl_items.specs.Parts.{part, gen_part, parts_of};
ghost use Rattle.vl_calls.specs.Callers as spec;
ghost use Rattle.vl_calls.specs.Reaching as reach;
ghost use Rattle.vl_calls.specs.Seen as seen_as;

use crate::calls::called;
use bits_core::{Items, NoMemory};
use std::alloc::Global;
use vl_acts::inner_names;
use vl_names::Index;
use vl_tree::{Function, Gen, Item, token_name};

/// The functions of a scope by name, and beside each the names that its text calls; of two of one name the first.
#[derive(Drop)]
struct Callers<'f> {
    names: Index<'f>,
    calls: Items<Index<'f>>,
}

fn unless_among<'f>(
    own: &Index<'f>,
    before: Index<'f>,
    name: &'f [u8],
) -> Result<Index<'f>, NoMemory>
    ensures { IfOk result (λ r. listed r ≡ (if is_among name.entry.now (listed own.now) then listed before.entry else added (listed before.entry) name.entry.now)) }
{
    let mut all = before;
    if !own.has(name) {
        all.add(name)?;
    }
    Ok(all)
}

fn without<'f>(alloc: Global, own: &Index<'f>, names: &[&'f [u8]]) -> Result<Index<'f>, NoMemory>
    ensures { IfOk result (λ r. listed r ≡ spec.without (listed own.now) [] (map (λ n. n.now) names.now)) }
{
    let mut all = Index::new(alloc);
    for name in names {
        all = unless_among(own, all, name)?;
    }
    Ok(all)
}

/// The names that a function calls, but for its inputs and its locals.
fn calls_from<'f>(function: &Function<'f>, alloc: Global) -> Result<Index<'f>, NoMemory>
    ensures { IfOk result (λ r. listed r ≡ spec.calls_from function.now) }
{
    let own = inner_names(function, alloc)?;
    let all = called(function, alloc)?;
    without(alloc, &own, all.as_slice())
}

fn with_function<'f>(
    function: &Function<'f>,
    alloc: Global,
    before: Callers<'f>,
) -> Result<Callers<'f>, NoMemory>
    ensures { IfOk result (λ r. seen_as.callers r ≡ spec.with_function (seen_as.callers before.entry) function.now) }
{
    let Callers {
        mut names,
        mut calls,
    } = before;
    if names.add(token_name(&function.name))? {
        calls.push(calls_from(function, alloc)?)?;
    }
    Ok(Callers { names, calls })
}

#[cycle(with_item)]
fn with_item<'f>(
    item: &Item<'f>,
    alloc: Global,
    before: Callers<'f>,
) -> Result<Callers<'f>, NoMemory>
    ensures { IfOk result (λ r. seen_as.callers r ≡ spec.with_part (seen_as.callers before.entry) (part item.now)) }
{
    match item {
        Item::Port(_) => Ok(before),
        Item::Net(_) => Ok(before),
        Item::Integer(_) => Ok(before),
        Item::GenVar(_) => Ok(before),
        Item::Parameter(_) => Ok(before),
        Item::Assign(_) => Ok(before),
        Item::Always(_) => Ok(before),
        Item::Initial(_) => Ok(before),
        Item::Function(function) => with_function(function, alloc, before),
        Item::Instances(_) => Ok(before),
        Item::Gates(_) => Ok(before),
        Item::Generate(items) => with_items(items.as_slice(), alloc, before),
        Item::Gen(generate) => after_gen(generate.get(), before),
    }
}

/// The functions of a generate construct are of its blocks.
fn after_gen<'f>(generate: &Gen<'f>, before: Callers<'f>) -> Result<Callers<'f>, NoMemory>
    ensures { IfOk result (λ r. seen_as.callers r ≡ spec.with_part (seen_as.callers before.entry) (gen_part generate.now)) }
{
    match generate {
        Gen::For { .. } => Ok(before),
        Gen::If { .. } => Ok(before),
        Gen::Case { .. } => Ok(before),
    }
}

#[cycle(with_item)]
fn with_items<'f>(
    items: &[Item<'f>],
    alloc: Global,
    before: Callers<'f>,
) -> Result<Callers<'f>, NoMemory>
    ensures { IfOk result (λ r. seen_as.callers r ≡ spec.with_parts (seen_as.callers before.entry) (parts_of (map part items.now))) }
{
    let mut all = before;
    for item in items {
        all = with_item(item, alloc, all)?;
    }
    Ok(all)
}

fn if_known<'f>(names: &Index<'f>, before: Index<'f>, name: &'f [u8]) -> Result<Index<'f>, NoMemory>
    ensures { IfOk result (λ r. listed r ≡ (if is_among name.entry.now (listed names.now) then added (listed before.entry) name.entry.now else listed before.entry)) }
{
    let mut all = before;
    if names.has(name) {
        all.add(name)?;
    }
    Ok(all)
}

fn with_known<'f>(
    names: &Index<'f>,
    before: Index<'f>,
    calls: &[&'f [u8]],
) -> Result<Index<'f>, NoMemory>
    ensures { IfOk result (λ r. listed r ≡ reach.with_known (listed names.now) (listed before.entry) (map (λ n. n.now) calls.now)) }
{
    let mut all = before;
    for call in calls {
        all = if_known(names, all, call)?;
    }
    Ok(all)
}

/// Behind other names those functions that stand in a list of calls, if there is one.
fn with_listed<'f>(
    names: &Index<'f>,
    before: Index<'f>,
    calls: Option<&Index<'f>>,
) -> Result<Index<'f>, NoMemory>
    ensures { IfOk result (λ r. listed r ≡ reach.with_known (listed names.now) (listed before.entry) (reach.names_or_none (option_map listed (option_copied calls.entry)))) }
{
    match calls {
        None => Ok(before),
        Some(calls) => with_known(names, before, calls.as_slice()),
    }
}

fn calls_in<'c, 'f>(calls: &'c [Index<'f>], at: usize) -> Option<&'c Index<'f>>
    ensures { option_copied result ≡ slice_get calls.now at }
{
    calls.get(at)
}

#[tactic(auto, using(crate::proofs::ListLaws::calls_seen))]
fn with_calls_at<'f>(
    all: &Callers<'f>,
    before: Index<'f>,
    at: Option<usize>,
) -> Result<Index<'f>, NoMemory>
    ensures { IfOk result (λ r. listed r ≡ reach.with_known (listed all.now.names) (listed before.entry) (reach.calls_at (map listed all.now.calls) at)) }
{
    match at {
        None => Ok(before),
        Some(at) => with_listed(&all.names, before, calls_in(all.calls.as_slice(), at)),
    }
}

/// Behind other names the functions that a function calls.
fn with_calls_of<'f>(
    all: &Callers<'f>,
    before: Index<'f>,
    name: &[u8],
) -> Result<Index<'f>, NoMemory>
    ensures { IfOk result (λ r. listed r ≡ reach.with_known (listed all.now.names) (listed before.entry) (reach.calls_of (seen_as.callers all.now) name.now)) }
{
    with_calls_at(all, before, all.names.place(name))
}

fn name_in<'f>(names: &[&'f [u8]], at: usize) -> Option<&'f [u8]>
    ensures { result ≡ slice_get names.now at }
{
    names.get(at).copied()
}

fn name_at<'f>(names: &Index<'f>, at: usize) -> Option<&'f [u8]>
    ensures { option_map (λ n. n.now) result ≡ slice_get (listed names.now) at }
{
    name_in(names.as_slice(), at)
}

/// What a function reaches by its calls and those of what it calls.
fn reached<'f>(alloc: Global, all: &Callers<'f>, name: &[u8]) -> Result<Index<'f>, NoMemory>
    ensures { IfOk result (λ r. listed r ≡ reach.reached (seen_as.callers all.now) name.now) }
{
    let mut seen = with_calls_of(all, Index::new(alloc), name)?;
    let limit = all.names.len();
    for at in 0..limit {
        match name_at(&seen, at) {
            None => return Ok(seen),
            Some(next) => seen = with_calls_of(all, seen, next)?,
        }
    }
    Ok(seen)
}

fn if_loops<'f>(
    alloc: Global,
    all: &Callers<'f>,
    before: Index<'f>,
    name: &'f [u8],
) -> Result<Index<'f>, NoMemory>
    ensures { IfOk result (λ r. listed r ≡ (if is_among name.entry.now (reach.reached (seen_as.callers all.now) name.entry.now) then added (listed before.entry) name.entry.now else listed before.entry)) }
{
    let reached = reached(alloc, all, name)?;
    let mut found = before;
    if reached.has(name) {
        found.add(name)?;
    }
    Ok(found)
}

fn circular_from<'f>(
    alloc: Global,
    all: &Callers<'f>,
    names: &[&'f [u8]],
) -> Result<Index<'f>, NoMemory>
    ensures { IfOk result (λ r. listed r ≡ reach.circular_from (seen_as.callers all.now) [] (map (λ n. n.now) names.now)) }
{
    let mut found = Index::new(alloc);
    for name in names {
        found = if_loops(alloc, all, found, name)?;
    }
    Ok(found)
}

/// The names of the functions among the items of a scope that call themselves through any calls. Linear in the items, and for each function in the
/// calls of the functions.
pub fn circular<'f>(items: &[Item<'f>], alloc: Global) -> Result<Index<'f>, NoMemory>
    ensures { IfOk result (λ r. listed r ≡ spec.circular (parts_of (map part items.now))) }
{
    let none = Callers {
        names: Index::new(alloc),
        calls: Items::new(alloc),
    };
    let all = with_items(items, alloc, none)?;
    circular_from(alloc, &all, all.names.as_slice())
}
