// The ports of a plain module by their places.
ghost use Rattle.std.specs.Prelude.{◌≡◌, ◌<◌, true, false, not, length, map, option_map, IfOk, IfSome, Some, None};
ghost use Rattle.std.specs.List.{list_any};
ghost use Rattle.std.specs.Str.{bytes_eq};
ghost use Rattle.plain_form.specs.Seen.{seen_port, seen_right, seen_assign, seen_module};
ghost use Rattle.plain_form.specs.SeenWires.{seen_wires};
ghost use Rattle.plain_form.specs.Wires as spec;

use crate::modules::{Assign, Module, Port, Right, read_module};
use crate::names::Names;
use bits_core::NoMemory;
use std::alloc::Global;
use vl_tree::Token;

/// What gives a port its value: a port that nothing drives, by its place, or a constant.
#[derive(Clone, Copy, Debug, PartialEq, Eq)]
pub enum Driver {
    Port(usize),
    Fixed(bool),
}

/// A port: its direction, and what its assign gives it, where it has one.
#[derive(Clone, Copy, Debug, PartialEq, Eq)]
pub struct Slot {
    pub is_input: bool,
    pub driver: Option<Driver>,
}

/// The ports of a module in order.
#[derive(Drop)]
pub struct Wires<'f> {
    pub names: Names<'f>,
    pub slots: Vec<Slot>,
}

impl<'f> Wires<'f> {
    // One port more, where its name is new.
    fn add_port(&mut self, port: Port<'f>) -> Result<bool, NoMemory>
        ensures is_new { IfOk result (λ r. r ≡ not (list_any (bytes_eq (seen_port port.entry).name) (seen_wires self.old).names)) }
        ensures added { IfOk result (λ r. r ≡ true → seen_wires self.new ≡ spec.with_port (seen_wires self.old) (seen_port port.entry)) }
    {
        if !self.names.add(port.name)? {
            return Ok(false);
        }
        self.slots.push(Slot {
            is_input: port.is_input,
            driver: None,
        })?;
        Ok(true)
    }

    // The place of an output that no assign has written.
    fn output(&self, name: &[u8]) -> Option<usize>
        ensures place { result ≡ spec.output_at (seen_wires self.now).slots (spec.place (seen_wires self.now).names name.now) }
        ensures within { IfSome result (λ i. i < length self.now.slots.items) }
    {
        let Some(at) = self.names.place(name) else {
            return None;
        };
        match self.slots.get(at) {
            Some(slot) if !slot.is_input && slot.driver.is_none() => Some(at),
            _ => None,
        }
    }

    // The place of an input.
    fn input(&self, name: &[u8]) -> Option<Driver>
        ensures { result ≡ spec.input_at (seen_wires self.now).slots (spec.place (seen_wires self.now).names name.now) }
    {
        let Some(at) = self.names.place(name) else {
            return None;
        };
        match self.slots.get(at) {
            Some(slot) if slot.is_input => Some(Driver::Port(at)),
            _ => None,
        }
    }

    fn driver(&self, right: Right<'f>) -> Option<Driver>
        ensures { result ≡ spec.driver_of (seen_wires self.now) (seen_right right.entry) }
    {
        match right {
            Right::Wire(name) => self.input(name),
            Right::Fixed(value) => Some(Driver::Fixed(value)),
        }
    }

    // One assign more, where its left side is an output that none has written, and its right side an input or a constant.
    fn drive(&mut self, assign: Assign<'f>) -> bool
        ensures driven { result ≡ true → spec.driven (seen_wires self.old) (seen_assign assign.entry) ≡ Some (seen_wires self.new) }
        ensures refused { result ≡ false → spec.driven (seen_wires self.old) (seen_assign assign.entry) ≡ None }
    {
        let Some(at) = self.output(assign.left) else {
            return false;
        };
        let Some(driver) = self.driver(assign.right) else {
            return false;
        };
        self.slots[at] = Slot {
            is_input: false,
            driver: Some(driver),
        };
        true
    }

    // All ports, where their names differ. Linear in their number.
    fn add_ports(&mut self, ports: &[Port<'f>]) -> Result<bool, NoMemory>
        ensures added { IfOk result (λ r. r ≡ true → spec.all_ports (seen_wires self.old) (map seen_port ports.now) ≡ Some (seen_wires self.new)) }
        ensures refused { IfOk result (λ r. r ≡ false → spec.all_ports (seen_wires self.old) (map seen_port ports.now) ≡ None) }
    {
        for port in ports {
            if !self.add_port(*port)? {
                return Ok(false);
            }
        }
        Ok(true)
    }

    // All assigns. Linear in their number.
    fn drive_all(&mut self, assigns: &[Assign<'f>]) -> bool
        ensures driven { result ≡ true → spec.all_driven (seen_wires self.old) (map seen_assign assigns.now) ≡ Some (seen_wires self.new) }
        ensures refused { result ≡ false → spec.all_driven (seen_wires self.old) (map seen_assign assigns.now) ≡ None }
    {
        for assign in assigns {
            if !self.drive(*assign) {
                return false;
            }
        }
        true
    }
}

/// The wires of the module, where it has this name, its ports have different names, and each assign gives an input or a
/// constant to an output that no other assign writes. Linear in the module.
pub fn read_wires<'f>(
    alloc: Global,
    source: &Module<'f>,
    top: &[u8],
) -> Result<Option<Wires<'f>>, NoMemory>
    ensures { IfOk result (λ r. option_map seen_wires r ≡ spec.wires_of top.now (seen_module source.now)) }
{
    if source.name != top {
        return Ok(None);
    }
    let mut wires = Wires {
        names: Names::new(alloc),
        slots: Vec::new(alloc),
    };
    if !wires.add_ports(source.ports.as_slice())? {
        return Ok(None);
    }
    if !wires.drive_all(source.assigns.as_slice()) {
        return Ok(None);
    }
    Ok(Some(wires))
}

// The texts of tokens.
fn texts<'f>(alloc: Global, tokens: &[Token<'f>]) -> Result<Vec<&'f [u8]>, NoMemory>
    ensures { IfOk result (λ v. map (λ w. w.now) v.items ≡ map (λ t. t.text.now) tokens.now) }
{
    let mut texts = Vec::new(alloc);
    for token in tokens {
        texts.push(token.text)?;
    }
    Ok(texts)
}

/// The wires of a source by its tokens, or none where it is not plain or its module has another name. Linear in the source.
pub fn read_source<'f>(
    alloc: Global,
    top: &[u8],
    tokens: &[Token<'f>],
) -> Result<Option<Wires<'f>>, NoMemory>
    ensures { IfOk result (λ r. option_map seen_wires r ≡ spec.source_of top.now (map (λ t. t.text.now) tokens.now)) }
{
    let texts = texts(alloc, tokens)?;
    match read_module(alloc, texts.as_slice())? {
        Some(source) => read_wires(alloc, &source, top),
        None => Ok(None),
    }
}
