// Plain modules by their words.
ghost use Rattle.std.specs.Prelude.{◌≡◌, [], map, option_map, IfOk};
ghost use Rattle.std.specs.Str.{bytes_eq};
ghost use Rattle.plain_form.specs.Modules as spec;
ghost use Rattle.plain_form.specs.Seen.{seen_port, seen_right, seen_assign, seen_module};

use crate::name_form::is_name;
use bits_core::NoMemory;
use std::alloc::Global;

/// A port of a module.
#[derive(Clone, Copy, Debug)]
pub struct Port<'f> {
    pub name: &'f [u8],
    pub is_input: bool,
}

/// The right side of an assign: a name, or a constant of one bit.
#[derive(Clone, Copy, Debug)]
pub enum Right<'f> {
    Wire(&'f [u8]),
    Fixed(bool),
}

/// An assign of one bit.
#[derive(Clone, Copy, Debug)]
pub struct Assign<'f> {
    pub left: &'f [u8],
    pub right: Right<'f>,
}

/// A module of one-bit ports and assigns.
#[derive(Debug, Drop)]
pub struct Module<'f> {
    pub name: &'f [u8],
    pub ports: Vec<Port<'f>>,
    pub assigns: Vec<Assign<'f>>,
}

fn is(word: &[u8], text: &[u8]) -> bool
    ensures { result ≡ bytes_eq word.now text.now }
{
    word == text
}

fn direction_of(word: &[u8]) -> Option<bool>
    ensures { result ≡ spec.direction_of word.now }
{
    if is(word, b"input") {
        Some(true)
    } else if is(word, b"output") {
        Some(false)
    } else {
        None
    }
}

fn right_of<'f>(word: &'f [u8]) -> Option<Right<'f>>
    ensures { option_map seen_right result ≡ spec.right_of word.entry.now }
{
    if is(word, b"1'b0") {
        Some(Right::Fixed(false))
    } else if is(word, b"1'b1") {
        Some(Right::Fixed(true))
    } else if is_name(word) {
        Some(Right::Wire(word))
    } else {
        None
    }
}

fn port_of<'f>(direction: &[u8], name: &'f [u8]) -> Option<Port<'f>>
    ensures { option_map seen_port result ≡ spec.port_of direction.now name.entry.now }
{
    if !is_name(name) {
        return None;
    }
    match direction_of(direction) {
        Some(is_input) => Some(Port { name, is_input }),
        None => None,
    }
}

fn assign_of<'f>(
    keyword: &[u8],
    left: &'f [u8],
    equals: &[u8],
    right: &'f [u8],
    semicolon: &[u8],
) -> Option<Assign<'f>>
    ensures { option_map seen_assign result ≡ spec.assign_of keyword.now left.entry.now equals.now right.entry.now semicolon.now }
{
    if !is(keyword, b"assign") || !is_name(left) || !is(equals, b"=") || !is(semicolon, b";") {
        return None;
    }
    match right_of(right) {
        Some(right) => Some(Assign { left, right }),
        None => None,
    }
}

/// The ports up to the closing bracket, and the words after it. Linear in the words.
fn read_ports<'w, 'f>(
    alloc: Global,
    words: &'w [&'f [u8]],
) -> Result<Option<(Vec<Port<'f>>, &'w [&'f [u8]])>, NoMemory>
    ensures { IfOk result (λ r. option_map (λ p. (map seen_port p.0.items, map (λ w. w.now) p.1.now)) r ≡ spec.ports_after [] (map (λ w. w.now) words.entry.now)) }
{
    let mut ports = Vec::new(alloc);
    let mut rest = words;
    'ports: loop {
        let [direction, name, mark, tail @ ..] = rest else {
            return Ok(None);
        };
        let Some(port) = port_of(direction, name) else {
            return Ok(None);
        };
        ports.push(port)?;
        if is(mark, b")") {
            return Ok(Some((ports, tail)));
        }
        if !is(mark, b",") {
            return Ok(None);
        }
        rest = tail;
    }
}

// Whether the rest is the one word `endmodule`.
fn is_end(rest: &[&[u8]]) -> bool
    ensures { result ≡ spec.is_end (map (λ w. w.now) rest.now) }
{
    rest.len() == 1 && is(rest[0], b"endmodule")
}

/// The assigns up to `endmodule`, which is the last word. Linear in the words.
fn read_assigns<'f>(alloc: Global, words: &[&'f [u8]]) -> Result<Option<Vec<Assign<'f>>>, NoMemory>
    ensures { IfOk result (λ r. option_map (λ a. map seen_assign a.items) r ≡ spec.assigns_after [] (map (λ w. w.now) words.now)) }
{
    let mut assigns = Vec::new(alloc);
    let mut rest = words;
    'assigns: loop {
        let [keyword, left, equals, right, semicolon, tail @ ..] = rest else {
            if is_end(rest) {
                return Ok(Some(assigns));
            }
            return Ok(None);
        };
        let Some(assign) = assign_of(keyword, left, equals, right, semicolon) else {
            return Ok(None);
        };
        assigns.push(assign)?;
        rest = tail;
    }
}

/// The module that the words spell, or none. Linear in the words.
pub fn read_module<'f>(alloc: Global, words: &[&'f [u8]]) -> Result<Option<Module<'f>>, NoMemory>
    ensures { IfOk result (λ r. option_map seen_module r ≡ spec.module_of (map (λ w. w.now) words.now)) }
{
    let [keyword, name, bracket, head @ ..] = words else {
        return Ok(None);
    };
    if !is(keyword, b"module") || !is_name(name) || !is(bracket, b"(") {
        return Ok(None);
    }
    let Some((ports, rest)) = read_ports(alloc, head)? else {
        return Ok(None);
    };
    let [semicolon, body @ ..] = rest else {
        return Ok(None);
    };
    if !is(semicolon, b";") {
        return Ok(None);
    }
    match read_assigns(alloc, body)? {
        Some(assigns) => Ok(Some(Module {
            name,
            ports,
            assigns,
        })),
        None => Ok(None),
    }
}
