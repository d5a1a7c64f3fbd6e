ghost use Rattle.std.specs.Prelude.{◌≡◌, [], map};
ghost use Rattle.vl_items.specs.Parts.{part, gen_part, body, option_body, parts_of, arms_of, arm_part};
ghost use Rattle.vl_places.specs.Places as spec;
ghost use Rattle.vl_places.specs.Steps as steps;

use std::slice::from_ref;
use vl_tree::{Block, Gen, GenArm, Item};

fn no_items<'t, 'f>() -> &'t [Item<'f>]
    ensures { result.now ≡ [] }
{
    &[]
}

fn block_items<'t, 'f>(block: &'t Block<'f>) -> &'t [Item<'f>]
    ensures { parts_of (map part result.now) ≡ spec.block_parts (body block.entry.now) }
{
    match block {
        Block::Begin { items, .. } => items.as_slice(),
        Block::Item(item) => from_ref(item.get()),
        Block::Empty => &[],
    }
}

fn option_items<'t, 'f>(block: &'t Option<Block<'f>>) -> &'t [Item<'f>]
    ensures { parts_of (map part result.now) ≡ spec.block_parts (option_body block.entry.now) }
{
    match block {
        None => &[],
        Some(block) => block_items(block),
    }
}

fn loop_items<'t, 'f>(block: &'t Block<'f>, number: u32) -> &'t [Item<'f>]
    ensures { parts_of (map part result.now) ≡ spec.block_parts (steps.branch_of_loop (body block.entry.now) number) }
{
    match number {
        0 => block_items(block),
        _ => &[],
    }
}

fn if_items<'t, 'f>(yes: &'t Block<'f>, no: &'t Option<Block<'f>>, number: u32) -> &'t [Item<'f>]
    ensures { parts_of (map part result.now) ≡ spec.block_parts (steps.branch_of_if (body yes.entry.now) (option_body no.entry.now) number) }
{
    match number {
        0 => block_items(yes),
        1 => option_items(no),
        _ => &[],
    }
}

fn arm_items<'t, 'f>(arm: &'t GenArm<'f>) -> &'t [Item<'f>]
    ensures { parts_of (map part result.now) ≡ spec.block_parts (spec.arm_block (arm_part arm.entry.now)) }
{
    match arm {
        GenArm::Match { block, .. } => block_items(block),
        GenArm::Default(block) => block_items(block),
    }
}

fn case_items<'t, 'f>(arms: &'t [GenArm<'f>], number: u32) -> &'t [Item<'f>]
    ensures { parts_of (map part result.now) ≡ spec.block_parts (spec.arm_at (arms_of (map arm_part arms.entry.now)) number) }
{
    let at = number as usize;
    if at < arms.len() {
        arm_items(&arms[at])
    } else {
        no_items()
    }
}

fn gen_items<'t, 'f>(generate: &'t Gen<'f>, number: u32) -> &'t [Item<'f>]
    ensures { parts_of (map part result.now) ≡ spec.block_parts (steps.branch (gen_part generate.entry.now) number) }
{
    match generate {
        Gen::For { block, .. } => loop_items(block, number),
        Gen::If { yes, no, .. } => if_items(yes, no, number),
        Gen::Case { arms, .. } => case_items(arms.as_slice(), number),
    }
}

/// The items of the block of this number in an item.
fn item_branch<'t, 'f>(item: &'t Item<'f>, number: u32) -> &'t [Item<'f>]
    ensures { parts_of (map part result.now) ≡ spec.block_parts (steps.branch (part item.entry.now) number) }
{
    match item {
        Item::Port(_) => &[],
        Item::Net(_) => &[],
        Item::Integer(_) => &[],
        Item::GenVar(_) => &[],
        Item::Parameter(_) => &[],
        Item::Assign(_) => &[],
        Item::Always(_) => &[],
        Item::Initial(_) => &[],
        Item::Function(_) => &[],
        Item::Instances(_) => &[],
        Item::Gates(_) => &[],
        Item::Generate(_) => &[],
        Item::Gen(generate) => gen_items(generate.get(), number),
    }
}

/// The items of the block of this number in the item at a place.
fn branch_items<'t, 'f>(items: &'t [Item<'f>], at: u32, number: u32) -> &'t [Item<'f>]
    ensures { parts_of (map part result.now) ≡ steps.branch_parts (spec.item_at (parts_of (map part items.entry.now)) at) number }
{
    let at = at as usize;
    if at < items.len() {
        item_branch(&items[at], number)
    } else {
        no_items()
    }
}

fn is_region<'f>(item: &Item<'f>) -> bool
    ensures { result ≡ steps.is_region (part item.now) }
{
    match item {
        Item::Generate(_) => true,
        Item::Gen(generate) => is_region_gen(generate.get()),
        Item::Port(_) => false,
        Item::Net(_) => false,
        Item::Integer(_) => false,
        Item::GenVar(_) => false,
        Item::Parameter(_) => false,
        Item::Assign(_) => false,
        Item::Always(_) => false,
        Item::Initial(_) => false,
        Item::Function(_) => false,
        Item::Instances(_) => false,
        Item::Gates(_) => false,
    }
}

fn is_region_gen<'f>(generate: &Gen<'f>) -> bool
    ensures { result ≡ steps.is_region (gen_part generate.now) }
{
    match generate {
        Gen::For { .. } => false,
        Gen::If { .. } => false,
        Gen::Case { .. } => false,
    }
}

/// Whether the item at a place is a region, whose own items are counted behind its place.
fn region_at<'f>(items: &[Item<'f>], at: u32) -> bool
    ensures { result ≡ steps.region_at (spec.item_at (parts_of (map part items.now)) at) }
{
    let at = at as usize;
    if at < items.len() {
        is_region(&items[at])
    } else {
        false
    }
}

fn own_items<'t, 'f>(item: &'t Item<'f>) -> &'t [Item<'f>]
    ensures { parts_of (map part result.now) ≡ steps.own_parts (part item.entry.now) }
{
    match item {
        Item::Generate(items) => items.as_slice(),
        Item::Gen(generate) => own_gen_items(generate.get()),
        Item::Port(_) => &[],
        Item::Net(_) => &[],
        Item::Integer(_) => &[],
        Item::GenVar(_) => &[],
        Item::Parameter(_) => &[],
        Item::Assign(_) => &[],
        Item::Always(_) => &[],
        Item::Initial(_) => &[],
        Item::Function(_) => &[],
        Item::Instances(_) => &[],
        Item::Gates(_) => &[],
    }
}

fn own_gen_items<'t, 'f>(generate: &'t Gen<'f>) -> &'t [Item<'f>]
    ensures { parts_of (map part result.now) ≡ steps.own_parts (gen_part generate.entry.now) }
{
    match generate {
        Gen::For { .. } => &[],
        Gen::If { .. } => &[],
        Gen::Case { .. } => &[],
    }
}

/// The items of the region at a place.
fn region_items<'t, 'f>(items: &'t [Item<'f>], at: u32) -> &'t [Item<'f>]
    ensures { parts_of (map part result.now) ≡ steps.region_parts (spec.item_at (parts_of (map part items.entry.now)) at) }
{
    let at = at as usize;
    if at < items.len() {
        own_items(&items[at])
    } else {
        no_items()
    }
}

/// The items of the block at a place among the items of a module; none where no block stands there. Linear in the length of the place.
pub fn items_at<'t, 'f>(items: &'t [Item<'f>], place: &[u32]) -> &'t [Item<'f>]
    ensures { parts_of (map part result.now) ≡ steps.parts_at (parts_of (map part items.entry.now)) place.now }
{
    let mut now = items;
    let mut item: Option<u32> = None;
    for number in place {
        match item {
            None => item = Some(*number),
            Some(at) => {
                if region_at(now, at) {
                    now = region_items(now, at);
                    item = Some(*number);
                } else {
                    now = branch_items(now, at, *number);
                    item = None;
                }
            }
        }
    }
    match item {
        None => now,
        Some(at) => region_items(now, at),
    }
}
