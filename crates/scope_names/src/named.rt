ghost use Rattle.std.specs.Prelude.{◌≡◌, map, IfOk};
ghost use Rattle.vl_items.specs.Declarations.{declare_parts};
ghost use Rattle.vl_items.specs.Parts.{gen_part, part, parts_of};
ghost use Rattle.vl_names.specs.Names.{listed};
ghost use Rattle.vl_names.specs.Outward.{all, is_known as known};
ghost use Rattle.vl_names.specs.Tables.{table};
ghost use Rattle.scope_names.specs.Named as spec;
ghost use Rattle.scope_names.specs.Seen.{around};

use bits_core::NoMemory;
use std::alloc::Global;
use std::slice;
use vl_items::{begin, declare, declare_head, declare_item, declare_items};
use vl_modules::stub_items;
use vl_names::{Index, Kind, Outside, Table};
use vl_nets::use_items;
use vl_tree::{Gen, Item, Module};

/// The names that an item declares, and the nets among those that it uses.
fn with_item<'f>(
    item: &Item<'f>,
    alloc: Global,
    outside: Outside<'_, 'f>,
    before: Table<'f>,
) -> Result<Table<'f>, NoMemory>
    ensures { IfOk result (λ r. table r ≡ spec.named_item (known (table outside.entry.variable.now) (all outside.entry.scopes.now) outside.entry.outer) (table before.entry) (part item.now)) }
{
    let declared = declare_item(item, alloc, before)?;
    use_items(slice::from_ref(item), alloc, outside, declared)
}

#[cycle(with_named)]
fn with_named<'f>(
    item: &Item<'f>,
    alloc: Global,
    outside: Outside<'_, 'f>,
    before: Table<'f>,
) -> Result<Table<'f>, NoMemory>
    ensures { IfOk result (λ r. table r ≡ spec.named_part (known (table outside.entry.variable.now) (all outside.entry.scopes.now) outside.entry.outer) (table before.entry) (part item.now)) }
{
    match item {
        Item::Generate(items) => all_named(items.as_slice(), alloc, outside, before),
        Item::Port(_) => with_item(item, alloc, outside, before),
        Item::Net(_) => with_item(item, alloc, outside, before),
        Item::Integer(_) => with_item(item, alloc, outside, before),
        Item::GenVar(_) => with_item(item, alloc, outside, before),
        Item::Parameter(_) => with_item(item, alloc, outside, before),
        Item::Assign(_) => with_item(item, alloc, outside, before),
        Item::Always(_) => with_item(item, alloc, outside, before),
        Item::Initial(_) => with_item(item, alloc, outside, before),
        Item::Function(_) => with_item(item, alloc, outside, before),
        Item::Instances(_) => with_item(item, alloc, outside, before),
        Item::Gates(_) => with_item(item, alloc, outside, before),
        Item::Gen(generate) => after_gen(generate.get(), outside, before),
    }
}

/// A generate construct declares nothing in the scope round it, and its nets are those of its blocks.
fn after_gen<'f>(
    generate: &Gen<'f>,
    outside: Outside<'_, 'f>,
    before: Table<'f>,
) -> Result<Table<'f>, NoMemory>
    ensures { IfOk result (λ r. table r ≡ spec.named_part (known (table outside.entry.variable.now) (all outside.entry.scopes.now) outside.entry.outer) (table before.entry) (gen_part generate.now)) }
{
    match generate {
        Gen::For { .. } => Ok(before),
        Gen::If { .. } => Ok(before),
        Gen::Case { .. } => Ok(before),
    }
}

/// Items from the first on.
#[cycle(with_named)]
fn all_named<'f>(
    items: &[Item<'f>],
    alloc: Global,
    outside: Outside<'_, 'f>,
    before: Table<'f>,
) -> Result<Table<'f>, NoMemory>
    ensures { IfOk result (λ r. table r ≡ spec.named_parts (known (table outside.entry.variable.now) (all outside.entry.scopes.now) outside.entry.outer) (table before.entry) (parts_of (map part items.now))) }
{
    let mut all = before;
    for item in items {
        all = with_named(item, alloc, outside, all)?;
    }
    Ok(all)
}

fn joined<'f>(names: &[&'f [u8]], alloc: Global, before: Table<'f>) -> Result<Table<'f>, NoMemory>
    ensures { IfOk result (λ r. table r ≡ spec.joined (table before.entry) (map (λ n. n.now) names.now)) }
{
    let mut all = before;
    for name in names {
        all = declare(alloc, Kind::Constant, false, all, name)?;
    }
    Ok(all)
}

/// The names of some items behind those of a head, which is given twice: once for what is declared anywhere in the text.
fn text_names<'f>(
    items: &[Item<'f>],
    alloc: Global,
    outside: Outside<'_, 'f>,
    allowed: bool,
    head: Table<'f>,
    again: Table<'f>,
) -> Result<Table<'f>, NoMemory>
    requires { table head ≡ table again }
    ensures { IfOk result (λ r. table r ≡ spec.text_names allowed (around outside.entry) (table head.entry) (parts_of (map part items.now))) }
{
    let declared = declare_items(items, alloc, head)?;
    if !allowed {
        return Ok(declared);
    }
    let declared = joined(outside.variable.names.as_slice(), alloc, declared)?;
    let within = Outside {
        variable: &declared,
        scopes: outside.scopes,
        outer: outside.outer,
    };
    all_named(items, alloc, within, again)
}

/// The names of the scope of a module: parameters and ports of its head, then what its items declare, with the nets that have no declaration
/// where the module allows them. Linear in its items, but for the scopes in which a name is sought.
pub fn module_names<'f>(
    module: &Module<'f>,
    alloc: Global,
    outside: Outside<'_, 'f>,
) -> Result<Table<'f>, NoMemory>
    ensures { IfOk result (λ r. table r ≡ spec.module_names (around outside.entry) «module».now) }
{
    let head = declare_head(module, alloc, begin(alloc))?;
    let again = declare_head(module, alloc, begin(alloc))?;
    let items = module.items.as_slice();
    text_names(items, alloc, outside, module.name.implicit, head, again)
}

/// The names of the scope of a stub: parameters and ports of its module's head, and what its items declare of parameters and of ports.
pub fn stub_names<'f>(
    module: &Module<'f>,
    alloc: Global,
    ports: &Index<'f>,
) -> Result<Table<'f>, NoMemory>
    ensures { IfOk result (λ r. table r ≡ spec.stub_names (listed ports.now) «module».now) }
{
    let head = declare_head(module, alloc, begin(alloc))?;
    stub_items(module.items.as_slice(), alloc, ports, head)
}

/// The names of the scope of a generate block, with the nets that have no declaration where its module allows them.
pub fn block_names<'f>(
    items: &[Item<'f>],
    alloc: Global,
    outside: Outside<'_, 'f>,
    allowed: bool,
) -> Result<Table<'f>, NoMemory>
    ensures { IfOk result (λ r. table r ≡ spec.block_names allowed (around outside.entry) (parts_of (map part items.now))) }
{
    text_names(items, alloc, outside, allowed, begin(alloc), begin(alloc))
}
