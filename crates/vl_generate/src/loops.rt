ghost use Rattle.std.specs.Prelude.{◌≡◌, ◌||◌, map, IfOk};
ghost use Rattle.std.specs.Option.{option_copied};
ghost use Rattle.std.specs.Str.{bytes_eq};
ghost use Rattle.vl_size.specs.Chains.{IsNoBinary};
ghost use Rattle.vl_size.specs.Terms.{term, terms, picks, pick_term};
ghost use Rattle.vl_items.specs.Parts.{body};
ghost use Rattle.vl_tree.specs.Outcomes.{Gives, GivesSeen};
ghost use Rattle.vl_generate.specs.Turns as spec;

use crate::shade::Bound;
use crate::values::{assigned, test};
use crate::vectors::{entry, integer_bits};
use bits_core::{Items, Name, NoMemory};
use std::alloc::Global;
use vl_acts::block_writes;
use vl_const::Constants;
use vl_items::copied;
use vl_names::{Kind, Slot};
use vl_size::{Chain, Const, CountList, NameKind, Size, SizeEntry, chain_of};
use vl_tree::{Block, Code, Expr, Halt, LoopHead, Select, token_name};

fn is_text(text: &[u8], word: &[u8]) -> bool
    ensures { result ≡ bytes_eq text.now word.now }
{
    text == word
}

fn either(a: bool, b: bool) -> bool
    ensures { result ≡ a || b }
{
    a || b
}

/// Whether an expression names this. The operators of a chain from the left take no stack.
#[cycle(names_it)]
fn names_it(expr: &Expr, alloc: Global, name: &[u8]) -> Result<bool, NoMemory>
    ensures { IfOk result (λ r. r ≡ spec.names_it name.now (term expr.now)) }
{
    let Chain { first, mut links } = chain_of(alloc, expr)?;
    if links.len() == 0 {
        return operand_names_it(expr, alloc, name);
    }
    let mut found = operand_names_it(first, alloc, name)?;
    while let Some(link) = links.pop() {
        let next = names_it(link.right, alloc, name)?;
        found = either(found, next);
    }
    Ok(found)
}

/// Whether an expression that is no operator between operands does.
#[cycle(names_it)]
fn operand_names_it(expr: &Expr, alloc: Global, name: &[u8]) -> Result<bool, NoMemory>
    requires { IsNoBinary expr.now }
    ensures { IfOk result (λ r. r ≡ spec.names_it name.now (term expr.now)) }
{
    match expr {
        Expr::Number(_) => Ok(false),
        Expr::Name { name: own, selects } => {
            let inside = selects_name_it(selects.as_slice(), alloc, name)?;
            Ok(either(is_text(token_name(own), name), inside))
        }
        Expr::Call { arguments, .. } => some_names_it(arguments.as_slice(), alloc, name),
        Expr::System { argument, .. } => names_it(argument.get(), alloc, name),
        Expr::Concat(parts) => some_names_it(parts.as_slice(), alloc, name),
        Expr::Repeat { count, parts } => {
            let first = names_it(count.get(), alloc, name)?;
            Ok(either(first, some_names_it(parts.as_slice(), alloc, name)?))
        }
        Expr::Group(inner) => names_it(inner.get(), alloc, name),
        Expr::Unary { operand, .. } => names_it(operand.get(), alloc, name),
        Expr::Binary { .. } => unreachable!(),
        Expr::Choice { test, yes, no } => {
            let first = names_it(test.get(), alloc, name)?;
            let second = names_it(yes.get(), alloc, name)?;
            let last = names_it(no.get(), alloc, name)?;
            Ok(either(first, either(second, last)))
        }
    }
}

#[cycle(names_it)]
fn some_names_it(exprs: &[Expr], alloc: Global, name: &[u8]) -> Result<bool, NoMemory>
    ensures { IfOk result (λ r. r ≡ spec.some_names_it name.now (terms (map term exprs.now))) }
{
    for expr in exprs {
        if names_it(expr, alloc, name)? {
            return Ok(true);
        }
    }
    Ok(false)
}

#[cycle(names_it)]
fn select_names_it(select: &Select, alloc: Global, name: &[u8]) -> Result<bool, NoMemory>
    ensures { IfOk result (λ r. r ≡ spec.pick_names_it name.now (pick_term select.now)) }
{
    match select {
        Select::Index(index) => names_it(index, alloc, name),
        Select::Range(first, second) | Select::Up(first, second) | Select::Down(first, second) => {
            let left = names_it(first, alloc, name)?;
            Ok(either(left, names_it(second, alloc, name)?))
        }
    }
}

#[cycle(names_it)]
fn selects_name_it(selects: &[Select], alloc: Global, name: &[u8]) -> Result<bool, NoMemory>
    ensures { IfOk result (λ r. r ≡ spec.picks_name_it name.now (picks (map pick_term selects.now))) }
{
    for select in selects {
        if select_names_it(select, alloc, name)? {
            return Ok(true);
        }
    }
    Ok(false)
}

fn variable_entry(alloc: Global, name: &[u8], declared: &SizeEntry) -> Result<SizeEntry, NoMemory>
    ensures { IfOk result (λ r. r ≡ spec.variable_entry name.now declared.now) }
{
    Ok(SizeEntry {
        name: copied(alloc, name)?,
        kind: NameKind::Constant,
        length: declared.length,
        signed: declared.signed,
        ranged: declared.ranged,
        high: declared.high,
        low: declared.low,
        inputs: Items::new(alloc),
    })
}

fn met_entry(
    alloc: Global,
    name: &[u8],
    met: bool,
    declared: &Option<SizeEntry>,
) -> Result<Option<SizeEntry>, NoMemory>
    ensures { IfOk result (λ r. r ≡ spec.met_entry name.now met declared.now) }
{
    if !met {
        return Ok(None);
    }
    match declared {
        None => Ok(None),
        Some(declared) => Ok(Some(variable_entry(alloc, name, declared)?)),
    }
}

fn genvar_entry(alloc: Global, name: &[u8]) -> Result<SizeEntry, NoMemory>
    ensures { IfOk result (λ r. r ≡ spec.genvar_entry name.now) }
{
    let name: Name = copied(alloc, name)?;
    Ok(entry(
        NameKind::Constant,
        name,
        integer_bits(),
        true,
        Items::new(alloc),
    ))
}

fn variable_of(
    alloc: Global,
    name: &[u8],
    found: Option<&Slot>,
) -> Result<Option<SizeEntry>, NoMemory>
    ensures { IfOk result (λ r. r ≡ spec.variable_of name.now (option_copied found.entry)) }
{
    match found {
        None => Ok(None),
        Some(slot) => match slot.kind {
            Kind::Constant => met_entry(alloc, name, slot.met, &slot.entry),
            Kind::Signal => met_entry(alloc, name, slot.met, &slot.entry),
            Kind::Function => Ok(None),
            Kind::GenVar => Ok(Some(genvar_entry(alloc, name)?)),
        },
    }
}

fn is_formed(block: &Block, head: &LoopHead, alloc: Global) -> Result<bool, NoMemory>
    ensures { IfOk result (λ r. r ≡ spec.is_formed head.now (body block.now)) }
{
    let name = token_name(&head.start_name);
    let same = is_text(name, token_name(&head.step_name));
    let tested = names_it(head.test.get(), alloc, name)?;
    let written = block_writes(block, alloc, name)?;
    Ok(same && tested && !written)
}

fn or_unknown(entry: Option<SizeEntry>) -> Result<SizeEntry, Halt>
    ensures { Gives result (spec.or_unknown entry) }
{
    match entry {
        None => Err(Halt::Refused(Code::UnknownName)),
        Some(entry) => Ok(entry),
    }
}

/// The variable of a loop, as a constant.
fn variable(
    block: &Block,
    head: &LoopHead,
    alloc: Global,
    found: Option<&Slot>,
) -> Result<SizeEntry, Halt>
    ensures { Gives result (spec.variable head.now (body block.now) (option_copied found.entry)) }
{
    if !is_formed(block, head, alloc)? {
        return Err(Halt::Refused(Code::NotConstant));
    }
    or_unknown(variable_of(alloc, token_name(&head.start_name), found)?)
}

fn size_of(entry: &SizeEntry) -> Size
    ensures { result ≡ spec.size_of entry.now }
{
    Size {
        length: entry.length,
        signed: entry.signed,
    }
}

fn goes_on<S: Constants>(
    head: &LoopHead,
    alloc: Global,
    scope: &S,
    entry: &SizeEntry,
    value: &Const,
) -> Result<bool, Halt>
    ensures { Gives result (spec.goes_on (S.meaning scope.now) head.now entry.now value.now) }
{
    let inside = Bound {
        scope,
        name: entry.name.as_slice(),
        entry,
        value,
    };
    test(head.test.get(), alloc, &inside)
}

fn stepped<S: Constants>(
    head: &LoopHead,
    alloc: Global,
    scope: &S,
    entry: &SizeEntry,
    value: &Const,
) -> Result<Const, Halt>
    ensures { Gives result (spec.stepped (S.meaning scope.now) head.now entry.now value.now) }
{
    let inside = Bound {
        scope,
        name: entry.name.as_slice(),
        entry,
        value,
    };
    assigned(head.step.get(), alloc, &inside, size_of(entry))
}

/// The values of the variable, one for each turn.
fn values<S: Constants>(
    head: &LoopHead,
    alloc: Global,
    limit: usize,
    scope: &S,
    entry: &SizeEntry,
    first: Const,
) -> Result<CountList, Halt>
    ensures { Gives result (spec.values limit (spec.goes_on (S.meaning scope.now) head.now entry.now) (spec.stepped (S.meaning scope.now) head.now entry.now) first) }
{
    let mut all = Items::new(alloc);
    let mut value = first;
    for turn in 0..limit {
        if !goes_on(head, alloc, scope, entry, &value)? {
            return Ok(all);
        }
        let next = stepped(head, alloc, scope, entry, &value)?;
        all.push(value)?;
        value = next;
    }
    if !goes_on(head, alloc, scope, entry, &value)? {
        return Ok(all);
    }
    Err(Halt::Refused(Code::LoopTooLong))
}

/// The variable of a loop, as a constant, and its value in each turn.
#[derive(Drop)]
pub struct Turns {
    pub entry: SizeEntry,
    pub values: CountList,
}

/// The turns of a generate loop, at most `limit` many, where `found` is what its variable's name stands for. The faults of its header: E14
/// where the two names differ, the test does not name the variable or the block writes it, E16 for a name that no signal, constant or genvar has, those
/// of its expressions, and E11 for more turns.
pub fn turns_of<S: Constants>(
    block: &Block,
    head: &LoopHead,
    alloc: Global,
    limit: usize,
    scope: &S,
    found: Option<&Slot>,
) -> Result<Turns, Halt>
    ensures { GivesSeen (λ t. (t.entry, t.values)) result (spec.turns limit (S.meaning scope.now) (option_copied found.entry) head.now (body block.now)) }
{
    let entry = variable(block, head, alloc, found)?;
    let first = assigned(head.start.get(), alloc, scope, size_of(&entry))?;
    let all = values(head, alloc, limit, scope, &entry, first)?;
    Ok(Turns { entry, values: all })
}
