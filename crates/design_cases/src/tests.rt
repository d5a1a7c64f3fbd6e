ghost use Rattle.std.specs.Prelude.{◌≡◌, [], ◌∷◌, IfOk};
ghost use Rattle.design_cases.specs.RootOnly.{IsInput, IsRoot};

use crate::shapes::Shape;
use bits_core::{Bits, Duplicate, Items, Name, NoMemory};
use design_core::{
    Binary, BitRef, DArm, DArmList, DBase, DExpr, DFunction, DLeft, DLocal, DMatch, DNode, DReset,
    DStmt, Design, Item, PowerUp, Scope, Signal, Unary,
};
use sqlite_items::Boxed;
use std::alloc::Global;
use std::test::Fail;

fn is_shaped<T: Shape>(alloc: Global, x: &T, text: &str) -> Result<bool, NoMemory> {
    let mut out = String::new(alloc);
    x.put(&mut out)?;
    Ok(out.as_str() == text)
}

fn copy_is_shaped<T: Duplicate + Shape + Drop>(
    alloc: Global,
    x: &T,
    text: &str,
) -> Result<bool, NoMemory> {
    let copied = x.copy(alloc)?;
    is_shaped(alloc, &copied, text)
}

// That the copy of what was built is this.
fn copies<T: Duplicate + Shape + Drop>(
    alloc: Global,
    built: Result<T, NoMemory>,
    text: &'static str,
) -> Result<(), Fail> {
    match built {
        Ok(x) => {
            if copy_is_shaped(alloc, &x, text) == Ok(true) {
                Ok(())
            } else {
                Err(Fail::from(text))
            }
        }
        Err(_) => Err(Fail::from("no memory")),
    }
}

fn one<T: Drop>(alloc: Global, x: T) -> Result<Items<T>, NoMemory>
    ensures { IfOk result (λ list. list ≡ x ∷ []) }
{
    let mut list = Items::new(alloc);
    list.push(x)?;
    Ok(list)
}

fn two<T: Drop>(alloc: Global, x: T, y: T) -> Result<Items<T>, NoMemory>
    ensures { IfOk result (λ list. list ≡ x ∷ y ∷ []) }
{
    let mut list = one(alloc, x)?;
    list.push(y)?;
    Ok(list)
}

fn name(alloc: Global, first: u8, second: u8) -> Result<Name, NoMemory>
    ensures { IfOk result (λ list. list ≡ first ∷ second ∷ []) }
{
    two(alloc, first, second)
}

fn of(length: u32, node: DNode) -> DExpr {
    DExpr {
        length,
        signed: false,
        node,
    }
}

fn signal(s: u32) -> DExpr {
    of(1, DNode::Signal(s))
}

fn boxed(alloc: Global, s: u32) -> Result<Boxed<DExpr>, NoMemory> {
    Ok(Boxed::new(alloc, signal(s))?)
}

// 4 bits, the lowest first 0110.
fn six(alloc: Global) -> Result<Bits, NoMemory> {
    Bits::from_u128(alloc, 6, 4)
}

fn constant(alloc: Global) -> Result<DNode, NoMemory> {
    Ok(DNode::Const(six(alloc)?))
}

fn select(alloc: Global) -> Result<DNode, NoMemory> {
    Ok(DNode::Select {
        base: boxed(alloc, 1)?,
        low: -2,
    })
}

fn select_at(alloc: Global) -> Result<DNode, NoMemory> {
    Ok(DNode::SelectAt {
        base: boxed(alloc, 1)?,
        index: boxed(alloc, 2)?,
        offset: -3,
        down: true,
    })
}

fn unary(alloc: Global) -> Result<DNode, NoMemory> {
    let a = of(4, constant(alloc)?);
    Ok(DNode::Unary {
        op: Unary::Nand,
        a: Boxed::new(alloc, a)?,
    })
}

fn binary(alloc: Global) -> Result<DNode, NoMemory> {
    Ok(DNode::Binary {
        op: Binary::ShiftRightSigned,
        a: boxed(alloc, 3)?,
        b: boxed(alloc, 4)?,
    })
}

fn mux(alloc: Global) -> Result<DNode, NoMemory> {
    Ok(DNode::Mux {
        c: boxed(alloc, 5)?,
        a: boxed(alloc, 6)?,
        b: boxed(alloc, 7)?,
    })
}

fn extend(alloc: Global) -> Result<DNode, NoMemory> {
    Ok(DNode::Extend {
        a: boxed(alloc, 8)?,
        by_sign: true,
    })
}

fn repeat(alloc: Global) -> Result<DNode, NoMemory> {
    Ok(DNode::Repeat {
        count: 9,
        part: boxed(alloc, 10)?,
    })
}

fn concat(alloc: Global) -> Result<DNode, NoMemory> {
    let first = of(2, mux(alloc)?);
    Ok(DNode::Concat(two(alloc, first, signal(11))?))
}

fn local(length: u32) -> DLocal {
    DLocal {
        length,
        signed: true,
    }
}

fn function(alloc: Global) -> Result<DFunction, NoMemory> {
    Ok(DFunction {
        length: 12,
        signed: true,
        inputs: two(alloc, local(13), local(14))?,
        locals: one(alloc, local(15))?,
        body: result(),
    })
}

// A write of local 1 to the result of a function.
fn result() -> DStmt {
    DStmt::Write {
        left: DLeft::Whole {
            base: DBase::Local(0),
            length: 12,
        },
        right: of(13, DNode::Local(1)),
        blocking: true,
    }
}

fn call(alloc: Global) -> Result<DNode, NoMemory> {
    let called = function(alloc)?;
    Ok(DNode::Call {
        function: Boxed::new(alloc, called)?,
        arguments: two(alloc, signal(16), signal(17))?,
    })
}

// A call with a length and a sign.
fn signed_call(alloc: Global) -> Result<DExpr, NoMemory> {
    Ok(DExpr {
        length: 12,
        signed: true,
        node: call(alloc)?,
    })
}

fn part() -> DLeft {
    DLeft::Part {
        base: DBase::Signal(18),
        low: -19,
        length: 20,
    }
}

fn at(alloc: Global) -> Result<DLeft, NoMemory> {
    Ok(DLeft::At {
        base: DBase::Signal(21),
        index: boxed(alloc, 22)?,
        offset: -23,
        down: false,
        length: 24,
    })
}

fn lefts(alloc: Global) -> Result<DLeft, NoMemory> {
    Ok(DLeft::Concat(two(alloc, at(alloc)?, part())?))
}

fn write(s: u32) -> DStmt {
    DStmt::Write {
        left: part(),
        right: signal(s),
        blocking: false,
    }
}

fn boxed_write(alloc: Global, s: u32) -> Result<Boxed<DStmt>, NoMemory> {
    Ok(Boxed::new(alloc, write(s))?)
}

fn branch(alloc: Global) -> Result<DStmt, NoMemory> {
    let yes = boxed_write(alloc, 26)?;
    let no = boxed_write(alloc, 27)?;
    Ok(DStmt::If {
        test: signal(25),
        yes,
        no,
    })
}

fn block(alloc: Global) -> Result<DStmt, NoMemory> {
    Ok(DStmt::Block(two(alloc, branch(alloc)?, write(28))?))
}

fn turns(alloc: Global) -> Result<DStmt, NoMemory> {
    Ok(DStmt::Turns(two(alloc, write(29), write(30))?))
}

fn item(alloc: Global) -> Result<DMatch, NoMemory> {
    let free = six(alloc)?;
    Ok(DMatch {
        value: signal(31),
        free: Some(free),
    })
}

fn plain_item() -> DMatch {
    DMatch {
        value: signal(32),
        free: None,
    }
}

fn arm(alloc: Global) -> Result<DArm, NoMemory> {
    Ok(DArm {
        matches: two(alloc, item(alloc)?, plain_item())?,
        body: write(33),
    })
}

fn arms(alloc: Global) -> Result<DArmList, NoMemory> {
    one(alloc, arm(alloc)?)
}

fn case(alloc: Global) -> Result<DStmt, NoMemory> {
    let rest = boxed_write(alloc, 35)?;
    let arms = arms(alloc)?;
    Ok(DStmt::Case {
        selector: signal(34),
        arms,
        rest: Some(rest),
    })
}

fn case_without_default(alloc: Global) -> Result<DStmt, NoMemory> {
    Ok(DStmt::Case {
        selector: signal(36),
        arms: Items::new(alloc),
        rest: None,
    })
}

#[test]
fn nodes_are_copied(rt: HostRuntime) -> Result<(), Fail> {
    let alloc = rt.alloc();
    copies(alloc, constant(alloc), " 0110")?;
    copies(alloc, select(alloc), " select -2 1 signal 1")?;
    copies(alloc, select_at(alloc), " down -3 1 signal 1 1 signal 2")?;
    copies(alloc, unary(alloc), " Nand 4 0110")?;
    copies(
        alloc,
        binary(alloc),
        " ShiftRightSigned 1 signal 3 1 signal 4",
    )?;
    copies(alloc, mux(alloc), " mux 1 signal 5 1 signal 6 1 signal 7")?;
    copies(alloc, extend(alloc), " extend_sign 1 signal 8")?;
    copies(alloc, repeat(alloc), " repeat 9 1 signal 10")?;
    copies(
        alloc,
        concat(alloc),
        " concat 2 mux 1 signal 5 1 signal 6 1 signal 7 1 signal 11 ,",
    )
}

#[test]
fn functions_are_copied(rt: HostRuntime) -> Result<(), Fail> {
    let alloc = rt.alloc();
    copies(alloc, Ok(local(13)), " 13s")?;
    copies(
        alloc,
        function(alloc),
        " 12s 13s 14s , 15s , local 0 12 = 13 local 1",
    )?;
    copies(
        alloc,
        signed_call(alloc),
        " 12s call 12s 13s 14s , 15s , local 0 12 = 13 local 1 1 signal 16 1 signal 17 ,",
    )
}

#[test]
fn left_sides_are_copied(rt: HostRuntime) -> Result<(), Fail> {
    let alloc = rt.alloc();
    copies(
        alloc,
        lefts(alloc),
        " concat signal 21 24 up -23 1 signal 22 part signal 18 20 -19 ,",
    )
}

#[test]
fn statements_are_copied(rt: HostRuntime) -> Result<(), Fail> {
    let alloc = rt.alloc();
    copies(
        alloc,
        block(alloc),
        " block if 1 signal 25 part signal 18 20 -19 <= 1 signal 26 part signal 18 20 -19 <= 1 signal 27 part signal 18 20 -19 <= 1 signal 28 ,",
    )?;
    copies(
        alloc,
        turns(alloc),
        " turns part signal 18 20 -19 <= 1 signal 29 part signal 18 20 -19 <= 1 signal 30 ,",
    )?;
    copies(
        alloc,
        case_without_default(alloc),
        " case 1 signal 36 , none",
    )
}

#[test]
fn cases_are_copied(rt: HostRuntime) -> Result<(), Fail> {
    let alloc = rt.alloc();
    copies(alloc, item(alloc), " 1 signal 31 0110")?;
    copies(
        alloc,
        arm(alloc),
        " 1 signal 31 0110 1 signal 32 none , part signal 18 20 -19 <= 1 signal 33",
    )?;
    copies(
        alloc,
        case(alloc),
        " case 1 signal 34 1 signal 31 0110 1 signal 32 none , part signal 18 20 -19 <= 1 signal 33 , part signal 18 20 -19 <= 1 signal 35",
    )
}

fn bit(signal: u32) -> BitRef {
    BitRef { signal, bit: 38 }
}

fn power_up() -> PowerUp {
    PowerUp {
        bit: bit(39),
        value: true,
    }
}

fn scope(alloc: Global) -> Result<Scope, NoMemory> {
    Ok(Scope {
        parent: Some(40),
        name: name(alloc, 41, 42)?,
        path: name(alloc, 43, 44)?,
        module: name(alloc, 45, 46)?,
    })
}

fn root(alloc: Global) -> Result<Scope, NoMemory>
    ensures { IfOk result (λ top. IsRoot top) }
{
    let name = name(alloc, 41, 42)?;
    let path = name.copy(alloc)?;
    Ok(Scope {
        parent: None,
        name,
        path,
        module: Items::new(alloc),
    })
}

// A signal of the root.
fn input(alloc: Global) -> Result<Signal, NoMemory>
    ensures { IfOk result (λ x. IsInput x) }
{
    let name = one(alloc, 120)?;
    let mut path = two(alloc, 41, 42)?;
    path.push(46)?;
    path.push(120)?;
    Ok(Signal {
        scope: 0,
        name,
        path,
        word: None,
        length: 1,
        signed: true,
        ranged: false,
        high: 69,
        low: 70,
    })
}

// A design of one scope with one signal.
#[tactic(auto, unfolding(design_core::specs::Wellformed::is_design, design_core::specs::Wellformed::are_formed, design_core::specs::Wellformed::scopes_apart, design_core::specs::Wellformed::print_apart))]
fn design(alloc: Global) -> Result<Design, NoMemory> {
    let top = root(alloc)?;
    let scopes = one(alloc, top)?;
    let x = input(alloc)?;
    let signals = one(alloc, x)?;
    Ok(Design {
        scopes,
        signals,
        items: Items::new(alloc),
        powerup: Items::new(alloc),
    })
}

fn word_of_array(alloc: Global) -> Result<Signal, NoMemory> {
    Ok(Signal {
        scope: 47,
        name: name(alloc, 48, 49)?,
        path: name(alloc, 50, 51)?,
        word: Some(-52),
        length: 53,
        signed: true,
        ranged: true,
        high: 54,
        low: -55,
    })
}

fn reset(alloc: Global) -> Result<DReset, NoMemory> {
    Ok(DReset {
        bit: bit(56),
        asserted: true,
        branch: turns(alloc)?,
        test: signal(68),
    })
}

fn assign(alloc: Global) -> Result<Item, NoMemory> {
    Ok(Item::Assign {
        scope: 57,
        weight: 58,
        left: at(alloc)?,
        right: signal(59),
    })
}

fn process(alloc: Global) -> Result<Item, NoMemory> {
    Ok(Item::Comb {
        scope: 60,
        weight: 61,
        body: branch(alloc)?,
    })
}

fn register(alloc: Global) -> Result<Item, NoMemory> {
    Ok(Item::Clocked {
        scope: 62,
        weight: 63,
        reset: Some(reset(alloc)?),
        body: write(64),
    })
}

fn register_without_reset() -> Item {
    Item::Clocked {
        scope: 65,
        weight: 18446744073709551615,
        reset: None,
        body: write(66),
    }
}

#[test]
fn names_and_bits_are_copied(rt: HostRuntime) -> Result<(), Fail> {
    let alloc = rt.alloc();
    copies(alloc, Ok(bit(37)), " 37 38")?;
    copies(alloc, Ok(power_up()), " 39 38 yes")?;
    copies(alloc, scope(alloc), " 40 41 42 , 43 44 , 45 46 ,")?;
    copies(alloc, root(alloc), " none 41 42 , 41 42 , ,")?;
    copies(
        alloc,
        design(alloc),
        " none 41 42 , 41 42 , , , 0 120 , 41 42 46 120 , none 1s no 69 70 , , ,",
    )?;
    copies(
        alloc,
        word_of_array(alloc),
        " 47 48 49 , 50 51 , -52 53s yes 54 -55",
    )
}

#[test]
fn items_are_copied(rt: HostRuntime) -> Result<(), Fail> {
    let alloc = rt.alloc();
    copies(
        alloc,
        reset(alloc),
        " 56 38 yes 1 signal 68 turns part signal 18 20 -19 <= 1 signal 29 part signal 18 20 -19 <= 1 signal 30 ,",
    )?;
    copies(
        alloc,
        assign(alloc),
        " assign 57 58 signal 21 24 up -23 1 signal 22 1 signal 59",
    )?;
    copies(
        alloc,
        process(alloc),
        " comb 60 61 if 1 signal 25 part signal 18 20 -19 <= 1 signal 26 part signal 18 20 -19 <= 1 signal 27",
    )?;
    copies(
        alloc,
        register(alloc),
        " clocked 62 63 56 38 yes 1 signal 68 turns part signal 18 20 -19 <= 1 signal 29 part signal 18 20 -19 <= 1 signal 30 , part signal 18 20 -19 <= 1 signal 64",
    )?;
    copies(
        alloc,
        Ok(register_without_reset()),
        " clocked 65 18446744073709551615 none part signal 18 20 -19 <= 1 signal 66",
    )
}
