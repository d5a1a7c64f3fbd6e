ghost use Rattle.std.specs.Prelude.{◌≡◌, ◌&&◌, ◌||◌, not, map, IfOk};
ghost use Rattle.std.specs.Str.{bytes_eq};
ghost use Rattle.vl_size.specs.Terms.{terms};
ghost use Rattle.vl_nets.specs.Nets.{lval_term};
ghost use Rattle.vl_items.specs.Parts.{part, gen_part, body, option_body, parts_of, arm_part, arms_of as body_arms, more, none};
ghost use Rattle.vl_acts.specs.Acts.{act, arm_act, acts_of, arms_of, option_act};
ghost use Rattle.vl_acts.specs.Writes as spec;

use crate::heads::own_names;
use bits_core::NoMemory;
use sqlite_items::Boxed;
use std::alloc::Global;
use vl_items::{begin, declare_item, declare_items};
use vl_tree::{
    Assignment, Block, Citem, Function, GateInstance, Gen, GenArm, Item, Lval, Stmt, token_name,
};

fn is_text(text: &[u8], word: &[u8]) -> bool
    ensures { result ≡ bytes_eq text.now word.now }
{
    text == word
}

fn either(a: bool, b: bool) -> bool
    ensures { result ≡ a || b }
{
    a || b
}

#[cycle(lval_writes)]
fn lval_writes(lval: &Lval, name: &[u8]) -> bool
    ensures { result ≡ spec.term_writes name.now (lval_term lval.now) }
{
    match lval {
        Lval::Name { name: own, .. } => is_text(token_name(own), name),
        Lval::Concat(parts) => some_lval_writes(parts.as_slice(), name),
    }
}

#[cycle(lval_writes)]
fn some_lval_writes(lvals: &[Lval], name: &[u8]) -> bool
    ensures { result ≡ spec.some_term_writes name.now (terms (map lval_term lvals.now)) }
{
    for lval in lvals {
        if lval_writes(lval, name) {
            return true;
        }
    }
    false
}

#[cycle(stmt_writes)]
fn stmt_writes(stmt: &Stmt, name: &[u8]) -> bool
    ensures { result ≡ spec.act_writes name.now (act stmt.now) }
{
    match stmt {
        Stmt::Empty => false,
        Stmt::Begin { body, .. } => some_stmt_writes(body.as_slice(), name),
        Stmt::If { yes, no, .. } => either(stmt_writes(yes.get(), name), else_writes(no, name)),
        Stmt::Case { items, .. } => some_citem_writes(items.as_slice(), name),
        Stmt::For { body, .. } => stmt_writes(body.get(), name),
        Stmt::Assign { left, .. } => lval_writes(left, name),
    }
}

#[cycle(stmt_writes)]
fn else_writes(no: &Option<Boxed<Stmt>>, name: &[u8]) -> bool
    ensures { result ≡ spec.act_writes name.now (option_act no.now) }
{
    match no {
        None => false,
        Some(stmt) => stmt_writes(stmt.get(), name),
    }
}

#[cycle(stmt_writes)]
fn some_stmt_writes(stmts: &[Stmt], name: &[u8]) -> bool
    ensures { result ≡ spec.some_act_writes name.now (acts_of (map act stmts.now)) }
{
    for stmt in stmts {
        if stmt_writes(stmt, name) {
            return true;
        }
    }
    false
}

#[cycle(stmt_writes)]
fn citem_writes(item: &Citem, name: &[u8]) -> bool
    ensures { result ≡ spec.arm_writes name.now (arm_act item.now) }
{
    match item {
        Citem::Match { body, .. } => stmt_writes(body, name),
        Citem::Default(body) => stmt_writes(body, name),
    }
}

#[cycle(stmt_writes)]
fn some_citem_writes(items: &[Citem], name: &[u8]) -> bool
    ensures { result ≡ spec.some_arm_writes name.now (arms_of (map arm_act items.now)) }
{
    for item in items {
        if citem_writes(item, name) {
            return true;
        }
    }
    false
}

fn some_assign_writes(assigns: &[Assignment], name: &[u8]) -> bool
    ensures { result ≡ spec.some_assign_writes name.now assigns.now }
{
    for assign in assigns {
        if lval_writes(&assign.left, name) {
            return true;
        }
    }
    false
}

fn some_gate_writes(gates: &[GateInstance], name: &[u8]) -> bool
    ensures { result ≡ spec.some_gate_writes name.now gates.now }
{
    for gate in gates {
        if lval_writes(&gate.output, name) {
            return true;
        }
    }
    false
}

fn function_writes(function: &Function, alloc: Global, name: &[u8]) -> Result<bool, NoMemory>
    ensures { IfOk result (λ r. r ≡ spec.function_writes name.now function.now) }
{
    let names = own_names(function, alloc)?;
    let hidden = names.has(name);
    let written = stmt_writes(function.body.get(), name);
    Ok(!hidden && written)
}

fn declares(items: &[Item], alloc: Global, name: &[u8]) -> Result<bool, NoMemory>
    ensures { IfOk result (λ r. r ≡ spec.declares name.now (parts_of (map part items.now))) }
{
    let all = declare_items(items, alloc, begin(alloc))?;
    Ok(all.names.has(name))
}

fn item_declares(item: &Item, alloc: Global, name: &[u8]) -> Result<bool, NoMemory>
    ensures { IfOk result (λ r. r ≡ spec.declares name.now (more (part item.now) none)) }
{
    let all = declare_item(item, alloc, begin(alloc))?;
    Ok(all.names.has(name))
}

fn unless(hidden: bool, written: bool) -> bool
    ensures { result ≡ not hidden && written }
{
    !hidden && written
}

#[cycle(item_writes)]
fn item_writes(item: &Item, alloc: Global, name: &[u8]) -> Result<bool, NoMemory>
    ensures { IfOk result (λ r. r ≡ spec.part_writes name.now (part item.now)) }
{
    match item {
        Item::Port(_) => Ok(false),
        Item::Net(_) => Ok(false),
        Item::Integer(_) => Ok(false),
        Item::GenVar(_) => Ok(false),
        Item::Parameter(_) => Ok(false),
        Item::Assign(assigns) => Ok(some_assign_writes(assigns.as_slice(), name)),
        Item::Always(process) => Ok(stmt_writes(&process.body, name)),
        Item::Initial(stmt) => Ok(stmt_writes(stmt, name)),
        Item::Function(function) => function_writes(function, alloc, name),
        Item::Instances(_) => Ok(false),
        Item::Gates(item) => Ok(some_gate_writes(item.gates.as_slice(), name)),
        Item::Generate(items) => some_item_writes(items.as_slice(), alloc, name),
        Item::Gen(generate) => gen_writes(generate.get(), alloc, name),
    }
}

#[cycle(item_writes)]
fn some_item_writes(items: &[Item], alloc: Global, name: &[u8]) -> Result<bool, NoMemory>
    ensures { IfOk result (λ r. r ≡ spec.some_part_writes name.now (parts_of (map part items.now))) }
{
    for item in items {
        if item_writes(item, alloc, name)? {
            return Ok(true);
        }
    }
    Ok(false)
}

#[cycle(item_writes)]
fn gen_writes(generate: &Gen, alloc: Global, name: &[u8]) -> Result<bool, NoMemory>
    ensures { IfOk result (λ r. r ≡ spec.part_writes name.now (gen_part generate.now)) }
{
    match generate {
        Gen::For { block, .. } => block_writes(block, alloc, name),
        Gen::If { yes, no, .. } => {
            let first = block_writes(yes, alloc, name)?;
            let last = option_block_writes(no, alloc, name)?;
            Ok(either(first, last))
        }
        Gen::Case { arms, .. } => some_arm_writes(arms.as_slice(), alloc, name),
    }
}

#[cycle(item_writes)]
fn option_block_writes(block: &Option<Block>, alloc: Global, name: &[u8]) -> Result<bool, NoMemory>
    ensures { IfOk result (λ r. r ≡ spec.body_writes name.now (option_body block.now)) }
{
    match block {
        None => Ok(false),
        Some(block) => block_writes(block, alloc, name),
    }
}

/// Whether a name of the scope round a block is written by its items, those of the blocks in it too. Linear in the text of the block for each level
/// of blocks in it.
#[cycle(item_writes)]
pub fn block_writes(block: &Block, alloc: Global, name: &[u8]) -> Result<bool, NoMemory>
    ensures { IfOk result (λ r. r ≡ spec.body_writes name.now (body block.now)) }
{
    match block {
        Block::Begin { items, .. } => {
            let hidden = declares(items.as_slice(), alloc, name)?;
            let written = some_item_writes(items.as_slice(), alloc, name)?;
            Ok(unless(hidden, written))
        }
        Block::Item(item) => {
            let hidden = item_declares(item.get(), alloc, name)?;
            let written = item_writes(item.get(), alloc, name)?;
            Ok(unless(hidden, written))
        }
        Block::Empty => Ok(false),
    }
}

#[cycle(item_writes)]
fn arm_writes(arm: &GenArm, alloc: Global, name: &[u8]) -> Result<bool, NoMemory>
    ensures { IfOk result (λ r. r ≡ spec.arm_body_writes name.now (arm_part arm.now)) }
{
    match arm {
        GenArm::Match { block, .. } => block_writes(block, alloc, name),
        GenArm::Default(block) => block_writes(block, alloc, name),
    }
}

#[cycle(item_writes)]
fn some_arm_writes(arms: &[GenArm], alloc: Global, name: &[u8]) -> Result<bool, NoMemory>
    ensures { IfOk result (λ r. r ≡ spec.some_body_writes name.now (body_arms (map arm_part arms.now))) }
{
    for arm in arms {
        if arm_writes(arm, alloc, name)? {
            return Ok(true);
        }
    }
    Ok(false)
}
