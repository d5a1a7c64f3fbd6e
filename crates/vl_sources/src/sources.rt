ghost use Rattle.std.specs.Prelude.{◌≡◌, ◌++◌, ◌∷◌, [], map, IfOk};
ghost use Rattle.vl_names.specs.Names.{listed};
ghost use Rattle.vl_items.specs.Declarations.{added};
ghost use Rattle.vl_sources.specs.Sources as spec;

use bits_core::{Items, Name, NoMemory};
use std::alloc::Global;
use vl_items::copied;
use vl_modules::parameters_of;
use vl_names::Index;
use vl_tree::{Module, token_name};

/// The modules of a source by name, each found in constant time on average.
#[derive(Drop)]
pub struct KnownModules<'f> {
    /// The names of the modules, each once.
    pub names: Index<'f>,
    /// Of each module, the names of the parameters that may be overridden.
    pub parameters: Items<Index<'f>>,
    /// The name of the first module of which an earlier one has the name.
    pub duplicate: Option<Name>,
}

fn first_of(
    alloc: Global,
    is_new: bool,
    before: Option<Name>,
    name: &[u8],
) -> Result<Option<Name>, NoMemory>
    ensures { IfOk result (λ r. r ≡ spec.first_of is_new before name.now) }
{
    if is_new {
        return Ok(before);
    }
    match before {
        Some(first) => Ok(Some(first)),
        None => Ok(Some(copied(alloc, name)?)),
    }
}

fn with_name<'f>(before: Index<'f>, name: &'f [u8]) -> Result<Index<'f>, NoMemory>
    ensures { IfOk result (λ r. listed r ≡ added (listed before.entry) name.entry.now) }
{
    let mut names = before;
    names.add(name)?;
    Ok(names)
}

fn with_parameters<'f>(
    before: Items<Index<'f>>,
    names: Index<'f>,
) -> Result<Items<Index<'f>>, NoMemory>
    ensures { IfOk result (λ r. map listed r ≡ map listed before.entry ++ listed names.entry ∷ []) }
{
    let mut all = before;
    all.push(names)?;
    Ok(all)
}

fn with_module<'f>(
    module: &Module<'f>,
    alloc: Global,
    before: KnownModules<'f>,
) -> Result<KnownModules<'f>, NoMemory>
    ensures { IfOk result (λ r. spec.seen r ≡ spec.with_module (spec.seen before.entry) «module».now) }
{
    let KnownModules {
        names,
        parameters,
        duplicate,
    } = before;
    let name = token_name(&module.name);
    let is_new = !names.has(name);
    let names = with_name(names, name)?;
    let parameters = with_parameters(parameters, parameters_of(module, alloc)?)?;
    let duplicate = first_of(alloc, is_new, duplicate, name)?;
    Ok(KnownModules {
        names,
        parameters,
        duplicate,
    })
}

/// The modules of a source in order, and the first whose name an earlier one has (E09; IEEE 1364-2005, 12.1). Linear in the source.
pub fn known_modules<'f>(
    modules: &[Module<'f>],
    alloc: Global,
) -> Result<KnownModules<'f>, NoMemory>
    ensures { IfOk result (λ r. spec.seen r ≡ spec.known_modules modules.now) }
{
    let mut all = KnownModules {
        names: Index::new(alloc),
        parameters: Items::new(alloc),
        duplicate: None,
    };
    for module in modules {
        all = with_module(module, alloc, all)?;
    }
    Ok(all)
}
