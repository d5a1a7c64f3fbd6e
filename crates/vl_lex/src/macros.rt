ghost use Rattle.std.specs.Prelude.{◌≡◌, map, OnOk, is_some};
ghost use Rattle.std.specs.Option.{option_map};
ghost use Rattle.vl_lex.specs.Lexed.{view};
ghost use Rattle.vl_lex.specs.Macros as spec;

use bits_core::NoMemory;
use std::alloc::Global;
use std::collections::HashMap;
use vl_tree::TokenList;

/// The macros that are defined, each with the tokens of its body.
#[derive(Drop)]
pub struct Macros<'f> {
    pub bodies: HashMap<&'f [u8], TokenList<'f>>,
}

impl<'f> Macros<'f> {
    /// No macro is defined.
    pub fn new(alloc: Global) -> Macros<'f>
        ensures { spec.look result ≡ (λ q. None) }
    {
        Macros {
            bodies: HashMap::new(alloc),
        }
    }

    /// Defines a macro, or defines it anew.
    pub fn define(&mut self, name: &'f [u8], body: TokenList<'f>) -> Result<(), NoMemory>
        ensures { OnOk result (spec.look self.new ≡ spec.updated (spec.look self.old) name.entry.now (Some (map view body.entry))) }
    {
        match self.bodies.insert(name, body) {
            Ok(_) => Ok(()),
            Err(_) => Err(NoMemory),
        }
    }

    /// The body of a macro, which is then no longer defined.
    pub fn take(&mut self, name: &'f [u8]) -> Option<TokenList<'f>>
        ensures body { option_map (map view) result ≡ spec.look self.old name.entry.now }
        ensures gone { spec.look self.new ≡ spec.updated (spec.look self.old) name.entry.now None }
    {
        self.bodies.remove(name)
    }

    /// Whether a name is that of a macro.
    pub fn is_defined(&self, name: &'f [u8]) -> bool
        ensures { result ≡ is_some (spec.look self.now name.entry.now) }
    {
        self.bodies.contains_key(name)
    }
}
