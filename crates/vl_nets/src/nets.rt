ghost use Rattle.std.specs.Prelude.{◌≡◌, map, IfOk};
ghost use Rattle.vl_names.specs.Outward.{all, is_known as known};
ghost use Rattle.vl_names.specs.Tables.{table};
ghost use Rattle.vl_size.specs.Chains.{IsNoBinary};
ghost use Rattle.vl_size.specs.Terms.{term, terms, picks, pick_term};
ghost use Rattle.vl_nets.specs.Nets as spec;
ghost use Rattle.vl_items.specs.Parts.{part, gen_part, parts_of};

use bits_core::NoMemory;
use std::alloc::Global;
use vl_items::{plain_entry, put};
use vl_names::{Kind, Outside, Slot, Table};
use vl_size::{Chain, NameKind, chain_of};
use vl_tree::{
    Assignment, Binds, Expr, GateInstance, Gen, Instance, Item, Lval, NamedBind, Select, token_name,
};

fn net_slot(alloc: Global, name: &[u8]) -> Result<Slot, NoMemory>
    ensures { IfOk result (λ r. r ≡ spec.net_slot name.now) }
{
    Ok(Slot {
        kind: Kind::Signal,
        entry: Some(plain_entry(alloc, NameKind::Signal, name)?),
        value: None,
        met: true,
    })
}

fn use_name<'f>(
    alloc: Global,
    outside: Outside<'_, 'f>,
    before: Table<'f>,
    name: &'f [u8],
) -> Result<Table<'f>, NoMemory>
    ensures { IfOk result (λ r. table r ≡ spec.use_name (known (table outside.entry.variable.now) (all outside.entry.scopes.now) outside.entry.outer) (table before.entry) name.entry.now) }
{
    if outside.knows(name) {
        return Ok(before);
    }
    put(before, name, net_slot(alloc, name)?)
}

/// The names of an expression. The operators of a chain from the left take no stack.
#[cycle(use_expr)]
fn use_expr<'f>(
    expr: &Expr<'f>,
    alloc: Global,
    outside: Outside<'_, 'f>,
    before: Table<'f>,
) -> Result<Table<'f>, NoMemory>
    ensures { IfOk result (λ r. table r ≡ spec.use_term (known (table outside.entry.variable.now) (all outside.entry.scopes.now) outside.entry.outer) (table before.entry) (term expr.now)) }
{
    let Chain { first, mut links } = chain_of(alloc, expr)?;
    if links.len() == 0 {
        return use_operand(expr, alloc, outside, before);
    }
    let mut all = use_operand(first, alloc, outside, before)?;
    while let Some(link) = links.pop() {
        all = use_expr(link.right, alloc, outside, all)?;
    }
    Ok(all)
}

/// Those of an expression that is no operator between operands.
#[cycle(use_expr)]
fn use_operand<'f>(
    expr: &Expr<'f>,
    alloc: Global,
    outside: Outside<'_, 'f>,
    before: Table<'f>,
) -> Result<Table<'f>, NoMemory>
    requires { IsNoBinary expr.now }
    ensures { IfOk result (λ r. table r ≡ spec.use_term (known (table outside.entry.variable.now) (all outside.entry.scopes.now) outside.entry.outer) (table before.entry) (term expr.now)) }
{
    match expr {
        Expr::Number(_) => Ok(before),
        Expr::Name { name, selects } => {
            let selects = selects.as_slice();
            let all = use_name(alloc, outside, before, token_name(name))?;
            use_selects(selects, alloc, outside, all)
        }
        Expr::Call { arguments, .. } => use_exprs(arguments.as_slice(), alloc, outside, before),
        Expr::System { argument, .. } => use_expr(argument.get(), alloc, outside, before),
        Expr::Concat(parts) => use_exprs(parts.as_slice(), alloc, outside, before),
        Expr::Repeat { count, parts } => {
            let all = use_expr(count.get(), alloc, outside, before)?;
            use_exprs(parts.as_slice(), alloc, outside, all)
        }
        Expr::Group(inner) => use_expr(inner.get(), alloc, outside, before),
        Expr::Unary { operand, .. } => use_expr(operand.get(), alloc, outside, before),
        Expr::Binary { .. } => unreachable!(),
        Expr::Choice { test, yes, no } => {
            let all = use_expr(test.get(), alloc, outside, before)?;
            let all = use_expr(yes.get(), alloc, outside, all)?;
            use_expr(no.get(), alloc, outside, all)
        }
    }
}

#[cycle(use_expr)]
fn use_exprs<'f>(
    exprs: &[Expr<'f>],
    alloc: Global,
    outside: Outside<'_, 'f>,
    before: Table<'f>,
) -> Result<Table<'f>, NoMemory>
    ensures { IfOk result (λ r. table r ≡ spec.use_terms (known (table outside.entry.variable.now) (all outside.entry.scopes.now) outside.entry.outer) (table before.entry) (terms (map term exprs.now))) }
{
    let mut all = before;
    for expr in exprs {
        all = use_expr(expr, alloc, outside, all)?;
    }
    Ok(all)
}

#[cycle(use_expr)]
fn use_select<'f>(
    select: &Select<'f>,
    alloc: Global,
    outside: Outside<'_, 'f>,
    before: Table<'f>,
) -> Result<Table<'f>, NoMemory>
    ensures { IfOk result (λ r. table r ≡ spec.use_pick (known (table outside.entry.variable.now) (all outside.entry.scopes.now) outside.entry.outer) (table before.entry) (pick_term select.now)) }
{
    match select {
        Select::Index(index) => use_expr(index, alloc, outside, before),
        Select::Range(first, second) | Select::Up(first, second) | Select::Down(first, second) => {
            let all = use_expr(first, alloc, outside, before)?;
            use_expr(second, alloc, outside, all)
        }
    }
}

#[cycle(use_expr)]
fn use_selects<'f>(
    selects: &[Select<'f>],
    alloc: Global,
    outside: Outside<'_, 'f>,
    before: Table<'f>,
) -> Result<Table<'f>, NoMemory>
    ensures { IfOk result (λ r. table r ≡ spec.use_picks (known (table outside.entry.variable.now) (all outside.entry.scopes.now) outside.entry.outer) (table before.entry) (picks (map pick_term selects.now))) }
{
    let mut all = before;
    for select in selects {
        all = use_select(select, alloc, outside, all)?;
    }
    Ok(all)
}

#[cycle(use_lval)]
fn use_lval<'f>(
    lval: &Lval<'f>,
    alloc: Global,
    outside: Outside<'_, 'f>,
    before: Table<'f>,
) -> Result<Table<'f>, NoMemory>
    ensures { IfOk result (λ r. table r ≡ spec.use_term (known (table outside.entry.variable.now) (all outside.entry.scopes.now) outside.entry.outer) (table before.entry) (spec.lval_term lval.now)) }
{
    match lval {
        Lval::Name { name, selects } => {
            let all = use_name(alloc, outside, before, token_name(name))?;
            use_selects(selects.as_slice(), alloc, outside, all)
        }
        Lval::Concat(parts) => use_lvals(parts.as_slice(), alloc, outside, before),
    }
}

#[cycle(use_lval)]
fn use_lvals<'f>(
    lvals: &[Lval<'f>],
    alloc: Global,
    outside: Outside<'_, 'f>,
    before: Table<'f>,
) -> Result<Table<'f>, NoMemory>
    ensures { IfOk result (λ r. table r ≡ spec.use_terms (known (table outside.entry.variable.now) (all outside.entry.scopes.now) outside.entry.outer) (table before.entry) (terms (map spec.lval_term lvals.now))) }
{
    let mut all = before;
    for lval in lvals {
        all = use_lval(lval, alloc, outside, all)?;
    }
    Ok(all)
}

fn use_value<'f>(
    value: &Option<Expr<'f>>,
    alloc: Global,
    outside: Outside<'_, 'f>,
    before: Table<'f>,
) -> Result<Table<'f>, NoMemory>
    ensures { IfOk result (λ r. table r ≡ spec.use_value (known (table outside.entry.variable.now) (all outside.entry.scopes.now) outside.entry.outer) (table before.entry) value.now) }
{
    match value {
        None => Ok(before),
        Some(expr) => use_expr(expr, alloc, outside, before),
    }
}

fn use_ordered<'f>(
    values: &[Option<Expr<'f>>],
    alloc: Global,
    outside: Outside<'_, 'f>,
    before: Table<'f>,
) -> Result<Table<'f>, NoMemory>
    ensures { IfOk result (λ r. table r ≡ spec.use_ordered (known (table outside.entry.variable.now) (all outside.entry.scopes.now) outside.entry.outer) (table before.entry) values.now) }
{
    let mut all = before;
    for value in values {
        all = use_value(value, alloc, outside, all)?;
    }
    Ok(all)
}

fn use_named<'f>(
    binds: &[NamedBind<'f>],
    alloc: Global,
    outside: Outside<'_, 'f>,
    before: Table<'f>,
) -> Result<Table<'f>, NoMemory>
    ensures { IfOk result (λ r. table r ≡ spec.use_named (known (table outside.entry.variable.now) (all outside.entry.scopes.now) outside.entry.outer) (table before.entry) binds.now) }
{
    let mut all = before;
    for bind in binds {
        all = use_value(&bind.value, alloc, outside, all)?;
    }
    Ok(all)
}

fn use_binds<'f>(
    binds: &Option<Binds<'f>>,
    alloc: Global,
    outside: Outside<'_, 'f>,
    before: Table<'f>,
) -> Result<Table<'f>, NoMemory>
    ensures { IfOk result (λ r. table r ≡ spec.use_binds (known (table outside.entry.variable.now) (all outside.entry.scopes.now) outside.entry.outer) (table before.entry) binds.now) }
{
    match binds {
        None => Ok(before),
        Some(Binds::Ordered(values)) => use_ordered(values.as_slice(), alloc, outside, before),
        Some(Binds::Named(binds)) => use_named(binds.as_slice(), alloc, outside, before),
    }
}

fn use_instances<'f>(
    instances: &[Instance<'f>],
    alloc: Global,
    outside: Outside<'_, 'f>,
    before: Table<'f>,
) -> Result<Table<'f>, NoMemory>
    ensures { IfOk result (λ r. table r ≡ spec.use_instances (known (table outside.entry.variable.now) (all outside.entry.scopes.now) outside.entry.outer) (table before.entry) instances.now) }
{
    let mut all = before;
    for instance in instances {
        all = use_binds(&instance.binds, alloc, outside, all)?;
    }
    Ok(all)
}

fn use_gates<'f>(
    gates: &[GateInstance<'f>],
    alloc: Global,
    outside: Outside<'_, 'f>,
    before: Table<'f>,
) -> Result<Table<'f>, NoMemory>
    ensures { IfOk result (λ r. table r ≡ spec.use_gates (known (table outside.entry.variable.now) (all outside.entry.scopes.now) outside.entry.outer) (table before.entry) gates.now) }
{
    let mut all = before;
    for gate in gates {
        all = use_lval(&gate.output, alloc, outside, all)?;
        all = use_exprs(gate.inputs.as_slice(), alloc, outside, all)?;
    }
    Ok(all)
}

fn use_assigns<'f>(
    assigns: &[Assignment<'f>],
    alloc: Global,
    outside: Outside<'_, 'f>,
    before: Table<'f>,
) -> Result<Table<'f>, NoMemory>
    ensures { IfOk result (λ r. table r ≡ spec.use_assigns (known (table outside.entry.variable.now) (all outside.entry.scopes.now) outside.entry.outer) (table before.entry) assigns.now) }
{
    let mut all = before;
    for assign in assigns {
        all = use_lval(&assign.left, alloc, outside, all)?;
    }
    Ok(all)
}

#[cycle(use_item)]
fn use_item<'f>(
    item: &Item<'f>,
    alloc: Global,
    outside: Outside<'_, 'f>,
    before: Table<'f>,
) -> Result<Table<'f>, NoMemory>
    ensures { IfOk result (λ r. table r ≡ spec.use_part (known (table outside.entry.variable.now) (all outside.entry.scopes.now) outside.entry.outer) (table before.entry) (part item.now)) }
{
    match item {
        Item::Port(_) => Ok(before),
        Item::Net(_) => Ok(before),
        Item::Integer(_) => Ok(before),
        Item::GenVar(_) => Ok(before),
        Item::Parameter(_) => Ok(before),
        Item::Assign(assigns) => use_assigns(assigns.as_slice(), alloc, outside, before),
        Item::Always(_) => Ok(before),
        Item::Initial(_) => Ok(before),
        Item::Function(_) => Ok(before),
        Item::Instances(item) => use_instances(item.instances.as_slice(), alloc, outside, before),
        Item::Gates(item) => use_gates(item.gates.as_slice(), alloc, outside, before),
        Item::Generate(items) => use_items(items.as_slice(), alloc, outside, before),
        Item::Gen(generate) => after_gen(generate.get(), outside, before),
    }
}

/// Nets of a generate construct are of its blocks.
fn after_gen<'f>(
    generate: &Gen<'f>,
    outside: Outside<'_, 'f>,
    before: Table<'f>,
) -> Result<Table<'f>, NoMemory>
    ensures { IfOk result (λ r. table r ≡ spec.use_part (known (table outside.entry.variable.now) (all outside.entry.scopes.now) outside.entry.outer) (table before.entry) (gen_part generate.now)) }
{
    match generate {
        Gen::For { .. } => Ok(before),
        Gen::If { .. } => Ok(before),
        Gen::Case { .. } => Ok(before),
    }
}

/// The names that are declared, and the nets without a declaration in port connections, in terminals of gates and on the left of
/// assigns; those of generate blocks left out. Linear in the items, but for the blocks that a name is sought in.
#[cycle(use_item)]
pub fn use_items<'f>(
    items: &[Item<'f>],
    alloc: Global,
    outside: Outside<'_, 'f>,
    before: Table<'f>,
) -> Result<Table<'f>, NoMemory>
    ensures { IfOk result (λ r. table r ≡ spec.use_parts (known (table outside.entry.variable.now) (all outside.entry.scopes.now) outside.entry.outer) (table before.entry) (parts_of (map part items.now))) }
{
    let mut all = before;
    for item in items {
        all = use_item(item, alloc, outside, all)?;
    }
    Ok(all)
}
