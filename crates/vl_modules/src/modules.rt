ghost use Rattle.std.specs.Prelude.{◌≡◌, map, IfOk, if◌then◌else◌};
ghost use Rattle.vl_names.specs.Names.{listed};
ghost use Rattle.vl_names.specs.Tables.{table};
ghost use Rattle.vl_modules.specs.Modules as spec;
ghost use Rattle.vl_items.specs.Parts.{part, gen_part, parts_of};
ghost use Rattle.vl_items.specs.Declarations.{added, is_among as is_among_names};

use bits_core::NoMemory;
use std::alloc::Global;
use vl_items::{begin, declare, declare_constants, declare_ports, declare_tokens};
use vl_names::{Index, Kind, Table};
use vl_tree::{ConstantValue, Gen, Item, Module, ParameterWord, Pdecl, PdeclList, Var, token_name};

#[cycle(port)]
fn port_item<'f>(item: &Item<'f>, alloc: Global, before: Table<'f>) -> Result<Table<'f>, NoMemory>
    ensures { IfOk result (λ r. table r ≡ spec.declare_port_part (table before.entry) (part item.now)) }
{
    match item {
        Item::Port(port) => {
            let names = port.names.as_slice();
            declare_tokens(names, alloc, Kind::Signal, port.signed, before)
        }
        Item::Net(_) => Ok(before),
        Item::Integer(_) => Ok(before),
        Item::GenVar(_) => Ok(before),
        Item::Parameter(_) => Ok(before),
        Item::Assign(_) => Ok(before),
        Item::Always(_) => Ok(before),
        Item::Initial(_) => Ok(before),
        Item::Function(_) => Ok(before),
        Item::Instances(_) => Ok(before),
        Item::Gates(_) => Ok(before),
        Item::Generate(items) => port_items(items.as_slice(), alloc, before),
        Item::Gen(generate) => port_gen(generate.get(), alloc, before),
    }
}

fn port_gen<'f>(generate: &Gen<'f>, alloc: Global, before: Table<'f>) -> Result<Table<'f>, NoMemory>
    ensures { IfOk result (λ r. table r ≡ spec.declare_port_part (table before.entry) (gen_part generate.now)) }
{
    match generate {
        Gen::For { .. } => Ok(before),
        Gen::If { .. } => Ok(before),
        Gen::Case { .. } => Ok(before),
    }
}

/// The ports to which items give a direction. Linear in the items.
#[cycle(port)]
pub fn port_items<'f>(
    items: &[Item<'f>],
    alloc: Global,
    before: Table<'f>,
) -> Result<Table<'f>, NoMemory>
    ensures { IfOk result (λ r. table r ≡ spec.declare_port_parts (table before.entry) (parts_of (map part items.now))) }
{
    let mut all = before;
    for item in items {
        all = port_item(item, alloc, all)?;
    }
    Ok(all)
}

/// The names of a module's ports. Linear in its items.
pub fn ports_of<'f>(module: &Module<'f>, alloc: Global) -> Result<Index<'f>, NoMemory>
    ensures { IfOk result (λ r. listed r ≡ spec.ports_of «module».now) }
{
    let all = declare_ports(&module.ports, alloc, begin(alloc))?;
    let all = port_items(module.items.as_slice(), alloc, all)?;
    Ok(names_of(all))
}

fn names_of<'f>(all: Table<'f>) -> Index<'f>
    ensures { listed result ≡ (table all.entry).names }
{
    all.names
}

fn is_among(name: &[u8], names: &Index) -> bool
    ensures { result ≡ is_among_names name.now (listed names.now) }
{
    names.has(name)
}

fn declare_among<'f>(
    vars: &[Var<'f>],
    alloc: Global,
    ports: &Index<'f>,
    signed: bool,
    before: Table<'f>,
) -> Result<Table<'f>, NoMemory>
    ensures { IfOk result (λ r. table r ≡ spec.declare_among (listed ports.now) signed (table before.entry) vars.now) }
{
    let mut all = before;
    for var in vars {
        let name = token_name(&var.name);
        if is_among(name, ports) {
            all = declare(alloc, Kind::Signal, signed, all, name)?;
        }
    }
    Ok(all)
}

#[cycle(stub)]
fn stub_item<'f>(
    item: &Item<'f>,
    alloc: Global,
    ports: &Index<'f>,
    before: Table<'f>,
) -> Result<Table<'f>, NoMemory>
    ensures { IfOk result (λ r. table r ≡ spec.declare_stub_part (listed ports.now) (table before.entry) (part item.now)) }
{
    match item {
        Item::Port(port) => {
            let names = port.names.as_slice();
            declare_tokens(names, alloc, Kind::Signal, port.signed, before)
        }
        Item::Net(net) => declare_among(net.vars.as_slice(), alloc, ports, net.signed, before),
        Item::Integer(vars) => declare_among(vars.as_slice(), alloc, ports, true, before),
        Item::GenVar(_) => Ok(before),
        Item::Parameter(parameter) => {
            declare_constants(parameter.values.as_slice(), alloc, before)
        }
        Item::Assign(_) => Ok(before),
        Item::Always(_) => Ok(before),
        Item::Initial(_) => Ok(before),
        Item::Function(_) => Ok(before),
        Item::Instances(_) => Ok(before),
        Item::Gates(_) => Ok(before),
        Item::Generate(items) => stub_items(items.as_slice(), alloc, ports, before),
        Item::Gen(generate) => stub_gen(generate.get(), alloc, ports, before),
    }
}

fn stub_gen<'f>(
    generate: &Gen<'f>,
    alloc: Global,
    ports: &Index<'f>,
    before: Table<'f>,
) -> Result<Table<'f>, NoMemory>
    ensures { IfOk result (λ r. table r ≡ spec.declare_stub_part (listed ports.now) (table before.entry) (gen_part generate.now)) }
{
    match generate {
        Gen::For { .. } => Ok(before),
        Gen::If { .. } => Ok(before),
        Gen::Case { .. } => Ok(before),
    }
}

/// The names that the items of a stub declare: its ports, whose names these are, and its parameters. Linear in the items.
#[cycle(stub)]
pub fn stub_items<'f>(
    items: &[Item<'f>],
    alloc: Global,
    ports: &Index<'f>,
    before: Table<'f>,
) -> Result<Table<'f>, NoMemory>
    ensures { IfOk result (λ r. table r ≡ spec.declare_stub_parts (listed ports.now) (table before.entry) (parts_of (map part items.now))) }
{
    let mut all = before;
    for item in items {
        all = stub_item(item, alloc, ports, all)?;
    }
    Ok(all)
}

fn is_parameter(word: ParameterWord) -> bool
    ensures { result ≡ spec.is_parameter word }
{
    match word {
        ParameterWord::Parameter => true,
        ParameterWord::LocalParam => false,
    }
}

fn with_name<'f>(before: Index<'f>, name: &'f [u8]) -> Result<Index<'f>, NoMemory>
    ensures { IfOk result (λ r. listed r ≡ added (listed before.entry) name.entry.now) }
{
    let mut names = before;
    names.add(name)?;
    Ok(names)
}

fn constant_names<'f>(
    values: &[ConstantValue<'f>],
    before: Index<'f>,
) -> Result<Index<'f>, NoMemory>
    ensures { IfOk result (λ r. listed r ≡ spec.constant_names (listed before.entry) values.now) }
{
    let mut all = before;
    for value in values {
        all = with_name(all, token_name(&value.name))?;
    }
    Ok(all)
}

fn with_parameters<'f>(
    values: &[ConstantValue<'f>],
    before: Index<'f>,
    word: ParameterWord,
) -> Result<Index<'f>, NoMemory>
    ensures { IfOk result (λ r. listed r ≡ (if spec.is_parameter word then spec.constant_names (listed before.entry) values.now else listed before.entry)) }
{
    if is_parameter(word) {
        constant_names(values, before)
    } else {
        Ok(before)
    }
}

#[cycle(parameter)]
fn parameter_item<'f>(item: &Item<'f>, before: Index<'f>) -> Result<Index<'f>, NoMemory>
    ensures { IfOk result (λ r. listed r ≡ spec.parameter_part (listed before.entry) (part item.now)) }
{
    match item {
        Item::Port(_) => Ok(before),
        Item::Net(_) => Ok(before),
        Item::Integer(_) => Ok(before),
        Item::GenVar(_) => Ok(before),
        Item::Parameter(parameter) => {
            with_parameters(parameter.values.as_slice(), before, parameter.word)
        }
        Item::Assign(_) => Ok(before),
        Item::Always(_) => Ok(before),
        Item::Initial(_) => Ok(before),
        Item::Function(_) => Ok(before),
        Item::Instances(_) => Ok(before),
        Item::Gates(_) => Ok(before),
        Item::Generate(items) => parameter_items(items.as_slice(), before),
        Item::Gen(generate) => parameter_gen(generate.get(), before),
    }
}

fn parameter_gen<'f>(generate: &Gen<'f>, before: Index<'f>) -> Result<Index<'f>, NoMemory>
    ensures { IfOk result (λ r. listed r ≡ spec.parameter_part (listed before.entry) (gen_part generate.now)) }
{
    match generate {
        Gen::For { .. } => Ok(before),
        Gen::If { .. } => Ok(before),
        Gen::Case { .. } => Ok(before),
    }
}

/// The names of the parameters that items declare, those of blocks left out. Linear in the items.
#[cycle(parameter)]
pub fn parameter_items<'f>(items: &[Item<'f>], before: Index<'f>) -> Result<Index<'f>, NoMemory>
    ensures { IfOk result (λ r. listed r ≡ spec.parameter_parts (listed before.entry) (parts_of (map part items.now))) }
{
    let mut all = before;
    for item in items {
        all = parameter_item(item, all)?;
    }
    Ok(all)
}

fn pdecl_names<'f>(parameters: &[Pdecl<'f>], before: Index<'f>) -> Result<Index<'f>, NoMemory>
    ensures { IfOk result (λ r. listed r ≡ spec.pdecl_names (listed before.entry) parameters.now) }
{
    let mut all = before;
    for parameter in parameters {
        all = with_name(all, token_name(&parameter.name))?;
    }
    Ok(all)
}

/// The names of the parameters of a module that may be overridden, in order: those of the list in its head, else those of its body.
/// Linear in the module.
pub fn parameters_of<'f>(module: &Module<'f>, alloc: Global) -> Result<Index<'f>, NoMemory>
    ensures { IfOk result (λ r. listed r ≡ spec.parameters_of «module».now) }
{
    parameters_by(module, alloc, &module.parameters)
}

fn parameters_by<'f>(
    module: &Module<'f>,
    alloc: Global,
    head: &Option<PdeclList<'f>>,
) -> Result<Index<'f>, NoMemory>
    ensures { IfOk result (λ r. listed r ≡ spec.parameters_by «module».now head.now) }
{
    match head {
        None => parameter_items(module.items.as_slice(), Index::new(alloc)),
        Some(parameters) => pdecl_names(parameters.as_slice(), Index::new(alloc)),
    }
}
