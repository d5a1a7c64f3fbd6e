use crate::items::{put_direction, put_items, put_names, put_net};
use crate::text::TreeText;
use crate::words::{put_range, put_type, put_value, put_var};
use std::alloc::{AllocError, Global};
use vl_tree::{Ansi, Module, Pdecl, Ports};

fn put_parameter(parameter: &Pdecl<'_>, out: &mut TreeText) {
    if let Some(ptype) = &parameter.word {
        out.put(b" parameter");
        put_type(ptype, out);
    }
    put_value(&parameter.name, &parameter.value, out)
}

fn put_parameters(parameters: &[Pdecl<'_>], out: &mut TreeText) {
    out.put(b" #<");
    for parameter in parameters {
        put_parameter(parameter, out);
    }
    out.put(b" >")
}

fn put_port(port: &Ansi<'_>, out: &mut TreeText) {
    if let Some(head) = &port.head {
        out.put(b" ");
        put_direction(head.dir, out);
        put_net(head.net, out);
        put_range(&head.range, head.signed, out);
    }
    put_var(&port.var, out)
}

fn put_declared(ports: &[Ansi<'_>], out: &mut TreeText) {
    for port in ports {
        put_port(port, out);
    }
}

fn put_ports(ports: &Option<Ports<'_>>, out: &mut TreeText) {
    out.put(b" <");
    match ports {
        None => {}
        Some(Ports::Declared(ports)) => put_declared(ports.as_slice(), out),
        Some(Ports::Names(names)) => put_names(names.as_slice(), out),
    }
    out.put(b" >")
}

fn put_module(module: &Module<'_>, out: &mut TreeText) {
    out.put(b" (module ");
    out.put(module.name.text);
    if let Some(parameters) = &module.parameters {
        put_parameters(parameters.as_slice(), out);
    }
    if let Some(ports) = &module.ports {
        put_ports(ports, out);
    }
    put_items(module.items.as_slice(), out);
    out.put(b")")
}

/// The modules of a source as a text, each behind a blank. Takes memory for the text, and stack as the trees are deep.
pub fn modules_text(alloc: Global, modules: &[Module<'_>]) -> Result<Vec<u8>, AllocError> {
    let mut out = TreeText::new(alloc);
    for module in modules {
        put_module(module, &mut out);
    }
    out.finish()
}
