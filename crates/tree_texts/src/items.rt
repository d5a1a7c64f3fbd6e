use crate::expressions::{show, show_list};
use crate::statements::{put_event, put_function, put_label, put_left, put_statement};
use crate::text::TreeText;
use crate::words::{put_name, put_range, put_type, put_value, put_var};
use vl_tree::{
    Assignment, Binds, Block, ConstantValue, Dir, Expr, Gate, GateInstance, GateItem, Gen, GenArm,
    Instance, InstanceItem, Item, LoopHead, NamedBind, NetItem, NetWord, ParameterItem,
    ParameterWord, PortItem, Process, Token, Var,
};

/// `input` or `output`.
pub fn put_direction(dir: Dir, out: &mut TreeText) {
    match dir {
        Dir::Input => out.put(b"input"),
        Dir::Output => out.put(b"output"),
    }
}

fn put_net_word(net: NetWord, out: &mut TreeText) {
    match net {
        NetWord::Wire => out.put(b"wire"),
        NetWord::Reg => out.put(b"reg"),
    }
}

/// `wire` or `reg` behind a blank, where one stands.
pub fn put_net(net: Option<NetWord>, out: &mut TreeText) {
    match net {
        Some(net) => {
            out.put(b" ");
            put_net_word(net, out)
        }
        None => {}
    }
}

/// Names, each behind a blank.
pub fn put_names(names: &[Token<'_>], out: &mut TreeText) {
    for name in names {
        put_name(name, out);
    }
}

fn put_vars(vars: &[Var<'_>], out: &mut TreeText) {
    for var in vars {
        put_var(var, out);
    }
}

fn put_ports(item: &PortItem<'_>, out: &mut TreeText) {
    put_direction(item.dir, out);
    put_net(item.net, out);
    put_range(&item.range, item.signed, out);
    put_names(item.names.as_slice(), out)
}

fn put_nets(item: &NetItem<'_>, out: &mut TreeText) {
    put_net_word(item.net, out);
    put_range(&item.range, item.signed, out);
    put_vars(item.vars.as_slice(), out)
}

fn put_values(values: &[ConstantValue<'_>], out: &mut TreeText) {
    for constant in values {
        put_value(&constant.name, &constant.value, out);
    }
}

fn put_constants(item: &ParameterItem<'_>, out: &mut TreeText) {
    match item.word {
        ParameterWord::Parameter => out.put(b"parameter"),
        ParameterWord::LocalParam => out.put(b"localparam"),
    }
    put_type(&item.ptype, out);
    put_values(item.values.as_slice(), out)
}

fn put_assignments(all: &[Assignment<'_>], out: &mut TreeText) {
    out.put(b"assign");
    for assignment in all {
        out.put(b" ");
        put_left(&assignment.left, out);
        out.put(b"=");
        show(&assignment.right, out);
    }
}

fn put_ordered(values: &[Option<Expr<'_>>], out: &mut TreeText) {
    let mut between: &[u8] = b"";
    for value in values {
        out.put(between);
        if let Some(value) = value {
            show(value, out);
        }
        between = b",";
    }
}

fn put_named(values: &[NamedBind<'_>], out: &mut TreeText) {
    let mut between: &[u8] = b".";
    for bind in values {
        out.put(between);
        out.put(bind.name.text);
        out.put(b"<");
        if let Some(value) = &bind.value {
            show(value, out);
        }
        out.put(b">");
        between = b",.";
    }
}

fn put_binds(binds: &Option<Binds<'_>>, out: &mut TreeText) {
    match binds {
        None => {}
        Some(Binds::Ordered(values)) => {
            out.put(b"<");
            put_ordered(values.as_slice(), out);
            out.put(b">")
        }
        Some(Binds::Named(values)) => {
            out.put(b"<");
            put_named(values.as_slice(), out);
            out.put(b">")
        }
    }
}

fn put_instances(all: &[Instance<'_>], out: &mut TreeText) {
    for instance in all {
        put_name(&instance.name, out);
        put_binds(&instance.binds, out);
    }
}

fn put_placed(item: &InstanceItem<'_>, out: &mut TreeText) {
    out.put(b"instance");
    put_name(&item.module, out);
    if item.overrides.is_some() {
        out.put(b" #");
        put_binds(&item.overrides, out);
    }
    put_instances(item.instances.as_slice(), out)
}

fn gate_word(gate: Gate) -> &'static [u8] {
    match gate {
        Gate::And => b"and",
        Gate::Nand => b"nand",
        Gate::Or => b"or",
        Gate::Nor => b"nor",
        Gate::Xor => b"xor",
        Gate::Xnor => b"xnor",
        Gate::Buf => b"buf",
        Gate::Not => b"not",
    }
}

fn put_gate(gate: &GateInstance<'_>, out: &mut TreeText) {
    out.put(b" ");
    if let Some(name) = gate.name {
        out.put(name.text);
    }
    out.put(b"<");
    put_left(&gate.output, out);
    out.put(b"=");
    show_list(gate.inputs.as_slice(), out);
    out.put(b">")
}

fn put_gates(item: &GateItem<'_>, out: &mut TreeText) {
    out.put(gate_word(item.gate));
    for gate in item.gates.as_slice() {
        put_gate(gate, out);
    }
}

fn put_head(head: &LoopHead<'_>, out: &mut TreeText) {
    out.put(b"(for ");
    out.put(head.start_name.text);
    out.put(b"=");
    show(head.start.get(), out);
    out.put(b" ");
    show(head.test.get(), out);
    out.put(b" ");
    out.put(head.step_name.text);
    out.put(b"=");
    show(head.step.get(), out);
    out.put(b" ")
}

fn put_process(process: &Process<'_>, out: &mut TreeText) {
    out.put(b"always ");
    put_event(&process.event, out);
    out.put(b" ");
    put_statement(&process.body, out)
}

/// An item, with `( )` around it.
#[cycle(item)]
pub fn put_item(item: &Item<'_>, out: &mut TreeText) {
    if let Item::Gen(found) = item {
        return put_construct(found.get(), out);
    }
    out.put(b"(");
    match item {
        Item::Port(ports) => put_ports(ports, out),
        Item::Net(nets) => put_nets(nets, out),
        Item::Integer(vars) => {
            out.put(b"integer");
            put_vars(vars.as_slice(), out);
        }
        Item::GenVar(names) => {
            out.put(b"genvar");
            put_names(names.as_slice(), out);
        }
        Item::Parameter(constants) => put_constants(constants, out),
        Item::Assign(all) => put_assignments(all.as_slice(), out),
        Item::Always(process) => put_process(process, out),
        Item::Initial(body) => {
            out.put(b"initial ");
            put_statement(body, out);
        }
        Item::Function(function) => put_function(function, out),
        Item::Instances(placed) => put_placed(placed, out),
        Item::Gates(gates) => put_gates(gates, out),
        Item::Generate(items) => {
            out.put(b"generate");
            put_items(items.as_slice(), out);
        }
        Item::Gen(_) => {}
    }
    out.put(b")")
}

/// Items, each behind a blank.
#[cycle(item)]
pub fn put_items(items: &[Item<'_>], out: &mut TreeText) {
    for item in items {
        out.put(b" ");
        put_item(item, out);
    }
}

#[cycle(item)]
fn put_construct(construct: &Gen<'_>, out: &mut TreeText) {
    match construct {
        Gen::For { head, block } => {
            put_head(head, out);
            put_block(block, out);
        }
        Gen::If { test, yes, no } => {
            out.put(b"(if ");
            show(test, out);
            out.put(b" ");
            put_block(yes, out);
            if let Some(no) = no {
                out.put(b" else ");
                put_block(no, out);
            }
        }
        Gen::Case { selector, arms } => {
            out.put(b"(case ");
            show(selector, out);
            put_arms(arms.as_slice(), out);
        }
    }
    out.put(b")")
}

#[cycle(item)]
fn put_arms(arms: &[GenArm<'_>], out: &mut TreeText) {
    for arm in arms {
        put_arm(arm, out);
    }
}

#[cycle(item)]
fn put_arm(arm: &GenArm<'_>, out: &mut TreeText) {
    match arm {
        GenArm::Match { values, block } => {
            out.put(b" (");
            show_list(values.as_slice(), out);
            out.put(b": ");
            put_block(block, out);
        }
        GenArm::Default(block) => {
            out.put(b" (default ");
            put_block(block, out);
        }
    }
    out.put(b")")
}

#[cycle(item)]
fn put_block(block: &Block<'_>, out: &mut TreeText) {
    match block {
        Block::Begin { name, items } => {
            out.put(b"(begin");
            put_label(name, out);
            put_items(items.as_slice(), out);
            out.put(b")")
        }
        Block::Item(item) => put_item(item.get(), out),
        Block::Empty => out.put(b";"),
    }
}
