ghost use Rattle.std.specs.Prelude.{◌≡◌, false, map, IfOk};
ghost use Rattle.vl_names.specs.Tables.{table};
ghost use Rattle.vl_items.specs.Declarations as spec;
ghost use Rattle.vl_items.specs.Parts.{part, gen_part, parts_of};

use bits_core::{Items, Name, NoMemory};
use std::alloc::Global;
use vl_names::{Index, Kind, Slot, Table};
use vl_size::{NameKind, SizeEntry};
use vl_tree::{
    Ansi, AnsiHead, ConstantValue, Gen, Item, Module, Pdecl, PdeclList, Ports, Token, Var,
    token_name,
};

/// A table without names. Takes no memory.
pub fn begin<'f>(alloc: Global) -> Table<'f>
    ensures { table result ≡ spec.no_names }
{
    Table {
        names: Index::new(alloc),
        slots: Items::new(alloc),
        signed: Index::new(alloc),
    }
}

/// One bit of this kind, without sign or range.
pub fn plain_entry(alloc: Global, kind: NameKind, name: &[u8]) -> Result<SizeEntry, NoMemory>
    ensures { IfOk result (λ r. r ≡ spec.plain_entry kind name.now) }
{
    Ok(SizeEntry {
        name: copied(alloc, name)?,
        kind,
        length: 1,
        signed: false,
        ranged: false,
        high: 0,
        low: 0,
        inputs: Items::new(alloc),
    })
}

/// A copy of some bytes.
pub fn copied(alloc: Global, bytes: &[u8]) -> Result<Name, NoMemory>
    ensures { IfOk result (λ r. r ≡ bytes.now) }
{
    let mut all = Vec::new(alloc);
    all.extend_from_slice(bytes)?;
    Ok(Items::of(all))
}

fn plain(alloc: Global, kind: Kind, name: &[u8]) -> Result<Option<SizeEntry>, NoMemory>
    ensures { IfOk result (λ r. r ≡ spec.plain kind name.now) }
{
    match kind {
        Kind::Constant => Ok(None),
        Kind::Signal => Ok(Some(plain_entry(alloc, NameKind::Signal, name)?)),
        Kind::Function => Ok(Some(plain_entry(alloc, NameKind::Function, name)?)),
        Kind::GenVar => Ok(None),
    }
}

fn ahead(alloc: Global, kind: Kind, name: &[u8]) -> Result<Slot, NoMemory>
    ensures { IfOk result (λ r. r ≡ spec.ahead kind name.now) }
{
    Ok(Slot {
        kind,
        entry: plain(alloc, kind, name)?,
        value: None,
        met: false,
    })
}

/// A name with its slot, if it is new. Constant time on average.
pub fn put<'f>(before: Table<'f>, name: &'f [u8], slot: Slot) -> Result<Table<'f>, NoMemory>
    ensures { IfOk result (λ r. table r ≡ spec.put (table before.entry) name.entry.now slot) }
{
    let Table {
        mut names,
        mut slots,
        signed,
    } = before;
    if names.add(name)? {
        slots.push(slot)?;
    }
    Ok(Table {
        names,
        slots,
        signed,
    })
}

fn with_sign<'f>(has_sign: bool, before: Table<'f>, name: &'f [u8]) -> Result<Table<'f>, NoMemory>
    ensures { IfOk result (λ r. table r ≡ spec.with_sign has_sign (table before.entry) name.entry.now) }
{
    let Table {
        names,
        slots,
        mut signed,
    } = before;
    if has_sign {
        signed.add(name)?;
    }
    Ok(Table {
        names,
        slots,
        signed,
    })
}

/// One declaration of a name, which is found by its first one. Constant time on average.
pub fn declare<'f>(
    alloc: Global,
    kind: Kind,
    signed: bool,
    before: Table<'f>,
    name: &'f [u8],
) -> Result<Table<'f>, NoMemory>
    ensures { IfOk result (λ r. table r ≡ spec.declare kind signed (table before.entry) name.entry.now) }
{
    let slot = ahead(alloc, kind, name)?;
    with_sign(signed, put(before, name, slot)?, name)
}

/// The declarations of these names in order. Linear in the names.
pub fn declare_tokens<'f>(
    tokens: &[Token<'f>],
    alloc: Global,
    kind: Kind,
    signed: bool,
    before: Table<'f>,
) -> Result<Table<'f>, NoMemory>
    ensures { IfOk result (λ r. table r ≡ spec.declare_tokens kind signed (table before.entry) tokens.now) }
{
    let mut all = before;
    for token in tokens {
        all = declare(alloc, kind, signed, all, token_name(token))?;
    }
    Ok(all)
}

fn declare_vars<'f>(
    vars: &[Var<'f>],
    alloc: Global,
    signed: bool,
    before: Table<'f>,
) -> Result<Table<'f>, NoMemory>
    ensures { IfOk result (λ r. table r ≡ spec.declare_vars signed (table before.entry) vars.now) }
{
    let mut all = before;
    for var in vars {
        all = declare(alloc, Kind::Signal, signed, all, token_name(&var.name))?;
    }
    Ok(all)
}

/// The declarations of these constants in order. Linear in the constants.
pub fn declare_constants<'f>(
    values: &[ConstantValue<'f>],
    alloc: Global,
    before: Table<'f>,
) -> Result<Table<'f>, NoMemory>
    ensures { IfOk result (λ r. table r ≡ spec.declare_constants (table before.entry) values.now) }
{
    let mut all = before;
    for value in values {
        all = declare(alloc, Kind::Constant, false, all, token_name(&value.name))?;
    }
    Ok(all)
}

/// The names that an item declares. Linear in the item.
#[cycle(declare)]
pub fn declare_item<'f>(
    item: &Item<'f>,
    alloc: Global,
    before: Table<'f>,
) -> Result<Table<'f>, NoMemory>
    ensures { IfOk result (λ r. table r ≡ spec.declare_part (table before.entry) (part item.now)) }
{
    match item {
        Item::Port(port) => {
            let names = port.names.as_slice();
            declare_tokens(names, alloc, Kind::Signal, port.signed, before)
        }
        Item::Net(net) => declare_vars(net.vars.as_slice(), alloc, net.signed, before),
        Item::Integer(vars) => declare_vars(vars.as_slice(), alloc, true, before),
        Item::GenVar(names) => {
            declare_tokens(names.as_slice(), alloc, Kind::GenVar, false, before)
        }
        Item::Parameter(parameter) => {
            declare_constants(parameter.values.as_slice(), alloc, before)
        }
        Item::Assign(_) => Ok(before),
        Item::Always(_) => Ok(before),
        Item::Initial(_) => Ok(before),
        Item::Function(function) => {
            let name = token_name(&function.name);
            declare(alloc, Kind::Function, false, before, name)
        }
        Item::Instances(_) => Ok(before),
        Item::Gates(_) => Ok(before),
        Item::Generate(items) => declare_region(items, alloc, before),
        Item::Gen(generate) => after_gen(generate.get(), before),
    }
}

/// A generate construct declares nothing in the scope round it.
fn after_gen<'f>(generate: &Gen<'f>, before: Table<'f>) -> Result<Table<'f>, NoMemory>
    ensures { IfOk result (λ r. table r ≡ spec.declare_part (table before.entry) (gen_part generate.now)) }
{
    match generate {
        Gen::For { .. } => Ok(before),
        Gen::If { .. } => Ok(before),
        Gen::Case { .. } => Ok(before),
    }
}

#[cycle(declare)]
fn declare_region<'a, 'f>(
    items: &'a Items<Item<'f>>,
    alloc: Global,
    before: Table<'f>,
) -> Result<Table<'f>, NoMemory>
    ensures { IfOk result (λ r. table r ≡ spec.declare_parts (table before.entry) (parts_of (map part items.now))) }
{
    declare_items(items.as_slice(), alloc, before)
}

/// The names that items declare, those of generate blocks left out. Linear in the items.
#[cycle(declare)]
pub fn declare_items<'f>(
    items: &[Item<'f>],
    alloc: Global,
    before: Table<'f>,
) -> Result<Table<'f>, NoMemory>
    ensures { IfOk result (λ r. table r ≡ spec.declare_parts (table before.entry) (parts_of (map part items.now))) }
{
    let mut all = before;
    for item in items {
        all = declare_item(item, alloc, all)?;
    }
    Ok(all)
}

fn declare_pdecls<'f>(
    parameters: &[Pdecl<'f>],
    alloc: Global,
    before: Table<'f>,
) -> Result<Table<'f>, NoMemory>
    ensures { IfOk result (λ r. table r ≡ spec.declare_pdecls (table before.entry) parameters.now) }
{
    let mut all = before;
    for parameter in parameters {
        all = declare(
            alloc,
            Kind::Constant,
            false,
            all,
            token_name(&parameter.name),
        )?;
    }
    Ok(all)
}

fn sign_kept(before: bool, head: &Option<AnsiHead>) -> bool
    ensures { result ≡ spec.sign_kept before head.now }
{
    match head {
        None => before,
        Some(head) => head.signed,
    }
}

fn declare_ansi<'f>(
    ports: &[Ansi<'f>],
    alloc: Global,
    before: Table<'f>,
) -> Result<Table<'f>, NoMemory>
    ensures { IfOk result (λ r. table r ≡ spec.declare_ansi false (table before.entry) ports.now) }
{
    let mut all = before;
    let mut signed = false;
    for port in ports {
        signed = sign_kept(signed, &port.head);
        all = declare(alloc, Kind::Signal, signed, all, token_name(&port.var.name))?;
    }
    Ok(all)
}

/// The ports that the head of a module declares, where it has a list; names alone are ports too. Linear in the list.
pub fn declare_ports<'f>(
    ports: &Option<Option<Ports<'f>>>,
    alloc: Global,
    before: Table<'f>,
) -> Result<Table<'f>, NoMemory>
    ensures { IfOk result (λ r. table r ≡ spec.declare_ports (table before.entry) ports.now) }
{
    match ports {
        None => Ok(before),
        Some(None) => Ok(before),
        Some(Some(Ports::Declared(ports))) => declare_ansi(ports.as_slice(), alloc, before),
        Some(Some(Ports::Names(names))) => {
            declare_tokens(names.as_slice(), alloc, Kind::Signal, false, before)
        }
    }
}

/// The parameters that the head of a module declares, where it has a list. Linear in the list.
pub fn declare_parameters<'f>(
    parameters: &Option<PdeclList<'f>>,
    alloc: Global,
    before: Table<'f>,
) -> Result<Table<'f>, NoMemory>
    ensures { IfOk result (λ r. table r ≡ spec.declare_parameters (table before.entry) parameters.now) }
{
    match parameters {
        None => Ok(before),
        Some(parameters) => declare_pdecls(parameters.as_slice(), alloc, before),
    }
}

/// The names that a module's head declares: parameters, then ports. Linear in the head.
pub fn declare_head<'f>(
    module: &Module<'f>,
    alloc: Global,
    before: Table<'f>,
) -> Result<Table<'f>, NoMemory>
    ensures { IfOk result (λ r. table r ≡ spec.declare_head (table before.entry) «module».now) }
{
    let all = declare_parameters(&module.parameters, alloc, before)?;
    declare_ports(&module.ports, alloc, all)
}
