ghost use Rattle.std.specs.Prelude.{◌≡◌, IfOk};
ghost use Rattle.std.specs.List.{list_any};
ghost use Rattle.std.specs.Str.{bytes_eq};
ghost use Rattle.blackbox_cut.specs.Boxes as spec;

use bits_core::{Items, Name, NameList, NoMemory};
use design_core::{Design, ScopeNumbers};
use std::alloc::Global;

fn is_name(text: &[u8], name: &Name) -> bool
    ensures { result ≡ bytes_eq text.now name.now }
{
    text == name.as_slice()
}

fn is_named(names: &[Name], text: &[u8]) -> bool
    ensures { result ≡ spec.is_named names.now text.now }
{
    for name in names {
        if is_name(text, name) {
            return true;
        }
    }
    false
}

/// The scopes whose module is one of the given names, in their order: each instance of such a module is a box. Linear in the scopes, times the names.
/// Fails where memory is wanting, as it is for more scopes than numbers of 32 bits tell apart.
pub fn boxes(alloc: Global, design: &Design, modules: &NameList) -> Result<ScopeNumbers, NoMemory>
    ensures { IfOk result (λ r. r ≡ spec.boxes_from modules.now 0 design.now.scopes) }
{
    let mut all = Items::new(alloc);
    let scopes = design.scopes.as_slice();
    for at in 0..scopes.len() {
        if is_named(modules.as_slice(), scopes[at].module.as_slice()) {
            let number = u32::try_from(at).map_err(|_| NoMemory)?;
            all.push(number)?;
        }
    }
    Ok(all)
}
