use crate::expressions::{Expr, ExprList};
use crate::statements::{
    Event, Function, Lval, NetWord, ParameterWord, Ptype, Range, Stmt, Var, VarList,
};
use crate::tokens::{Token, TokenList};
use bits_core::Items;
use sqlite_items::Boxed;

/// A parameter in a module's head; `word` is absent where the word `parameter` is, and then the type before goes on.
#[derive(Drop)]
pub struct Pdecl<'f> {
    pub word: Option<Option<Ptype<'f>>>,
    pub name: Token<'f>,
    pub value: Expr<'f>,
}

/// The parameters in a module's head.
pub type PdeclList<'f> = Items<Pdecl<'f>>;

/// `input` or `output`.
#[derive(Clone, Copy, Debug, PartialEq, Eq)]
pub enum Dir {
    Input,
    Output,
}

/// The direction and the type of a port that is declared in a module's head.
#[derive(Drop)]
pub struct AnsiHead<'f> {
    pub dir: Dir,
    pub net: Option<NetWord>,
    pub signed: bool,
    pub range: Option<Range<'f>>,
}

/// A port that is declared in a module's head; without a direction, those of the port before go on.
#[derive(Drop)]
pub struct Ansi<'f> {
    pub head: Option<AnsiHead<'f>>,
    pub var: Var<'f>,
}

/// The ports that are declared in a module's head.
pub type AnsiList<'f> = Items<Ansi<'f>>;

/// The ports in a module's head: declared there, or their names alone.
#[derive(Drop)]
pub enum Ports<'f> {
    Declared(AnsiList<'f>),
    Names(TokenList<'f>),
}

/// A constant and its value.
#[derive(Drop)]
pub struct ConstantValue<'f> {
    pub name: Token<'f>,
    pub value: Expr<'f>,
}

/// Constants and their values.
pub type ConstantValueList<'f> = Items<ConstantValue<'f>>;

/// A left side and a right side of an `assign`.
#[derive(Drop)]
pub struct Assignment<'f> {
    pub left: Lval<'f>,
    pub right: Expr<'f>,
}

/// The assignments of an `assign`.
pub type AssignmentList<'f> = Items<Assignment<'f>>;

/// A value by name: `.name(value)`.
#[derive(Drop)]
pub struct NamedBind<'f> {
    pub name: Token<'f>,
    pub value: Option<Expr<'f>>,
}

/// Values by name.
pub type NamedBindList<'f> = Items<NamedBind<'f>>;

/// Values by place.
pub type OrderedBindList<'f> = Items<Option<Expr<'f>>>;

/// Values of parameters or ports, by place or by name.
#[derive(Drop)]
pub enum Binds<'f> {
    Ordered(OrderedBindList<'f>),
    Named(NamedBindList<'f>),
}

/// An instance of a module; `binds` is absent where nothing stands in its brackets.
#[derive(Drop)]
pub struct Instance<'f> {
    pub name: Token<'f>,
    pub binds: Option<Binds<'f>>,
}

/// The instances that share one module and its overrides.
pub type InstanceList<'f> = Items<Instance<'f>>;

/// The kinds of gates.
#[derive(Clone, Copy, Debug, PartialEq, Eq)]
pub enum Gate {
    And,
    Nand,
    Or,
    Nor,
    Xor,
    Xnor,
    Buf,
    Not,
}

/// A gate: what it writes and what it reads.
#[derive(Drop)]
pub struct GateInstance<'f> {
    pub name: Option<Token<'f>>,
    pub output: Lval<'f>,
    pub inputs: ExprList<'f>,
}

/// The gates of one kind that stand together.
pub type GateInstanceList<'f> = Items<GateInstance<'f>>;

/// A declaration of ports in a module's body.
#[derive(Drop)]
pub struct PortItem<'f> {
    pub dir: Dir,
    pub net: Option<NetWord>,
    pub signed: bool,
    pub range: Option<Range<'f>>,
    pub names: TokenList<'f>,
}

/// A declaration of nets or variables.
#[derive(Drop)]
pub struct NetItem<'f> {
    pub net: NetWord,
    pub signed: bool,
    pub range: Option<Range<'f>>,
    pub vars: VarList<'f>,
}

/// A declaration of constants.
#[derive(Drop)]
pub struct ParameterItem<'f> {
    pub word: ParameterWord,
    pub ptype: Option<Ptype<'f>>,
    pub values: ConstantValueList<'f>,
}

/// A process.
#[derive(Drop)]
pub struct Process<'f> {
    pub event: Event<'f>,
    pub body: Stmt<'f>,
}

/// Instances of one module.
#[derive(Drop)]
pub struct InstanceItem<'f> {
    pub module: Token<'f>,
    pub overrides: Option<Binds<'f>>,
    pub instances: InstanceList<'f>,
}

/// Gates of one kind.
#[derive(Drop)]
pub struct GateItem<'f> {
    pub gate: Gate,
    pub gates: GateInstanceList<'f>,
}

/// The head of a loop.
#[derive(Drop)]
pub struct LoopHead<'f> {
    pub start_name: Token<'f>,
    pub start: Boxed<Expr<'f>>,
    pub test: Boxed<Expr<'f>>,
    pub step_name: Token<'f>,
    pub step: Boxed<Expr<'f>>,
}

/// An item of a module.
#[cycle(item)]
pub enum Item<'f> {
    Port(PortItem<'f>),
    Net(NetItem<'f>),
    Integer(VarList<'f>),
    GenVar(TokenList<'f>),
    Parameter(ParameterItem<'f>),
    Assign(AssignmentList<'f>),
    Always(Process<'f>),
    Initial(Stmt<'f>),
    Function(Function<'f>),
    Instances(InstanceItem<'f>),
    Gates(GateItem<'f>),
    Generate(Items<Item<'f>>),
    Gen(Boxed<Gen<'f>>),
}

impl<'f> Drop for Item<'f> {
    /// Lets go of an item and of those that it holds.
    #[cycle(item)]
    fn drop(self) {
        match self {
            Item::Generate(items) => let_go_all(items),
            Item::Gen(construct) => let_go_construct(construct),
            Item::Port(_item) => {}
            Item::Net(_item) => {}
            Item::Integer(_names) => {}
            Item::GenVar(_names) => {}
            Item::Parameter(_item) => {}
            Item::Assign(_assignments) => {}
            Item::Always(_process) => {}
            Item::Initial(_body) => {}
            Item::Function(_function) => {}
            Item::Instances(_item) => {}
            Item::Gates(_item) => {}
        }
    }
}

#[cycle(item)]
fn let_go(boxed: Boxed<Item<'_>>) {
    let _inner = boxed.into_inner();
}

#[cycle(item)]
fn let_go_construct(boxed: Boxed<Gen<'_>>) {
    let _inner = boxed.into_inner();
}

#[cycle(item)]
fn let_go_all(list: Items<Item<'_>>) {
    let mut list = list.into_vec();
    while let Some(_last) = list.pop() {}
    list.destroy_empty();
}

#[cycle(item)]
fn let_go_arms(list: Items<GenArm<'_>>) {
    let mut list = list.into_vec();
    while let Some(_last) = list.pop() {}
    list.destroy_empty();
}

/// A loop, a choice or a `case` over items.
#[cycle(item)]
pub enum Gen<'f> {
    For {
        head: LoopHead<'f>,
        block: Block<'f>,
    },
    If {
        test: Expr<'f>,
        yes: Block<'f>,
        no: Option<Block<'f>>,
    },
    Case {
        selector: Expr<'f>,
        arms: Items<GenArm<'f>>,
    },
}

impl<'f> Drop for Gen<'f> {
    /// Lets go of the construct and of its blocks.
    #[cycle(item)]
    fn drop(self) {
        match self {
            Gen::For {
                head: _head,
                block: _block,
            } => {}
            Gen::If {
                test: _test,
                yes: _yes,
                no: _no,
            } => {}
            Gen::Case {
                selector: _selector,
                arms,
            } => let_go_arms(arms),
        }
    }
}

/// An arm of a `case` over items.
#[cycle(item)]
#[derive(Drop)]
pub enum GenArm<'f> {
    Match {
        values: ExprList<'f>,
        block: Block<'f>,
    },
    Default(Block<'f>),
}

/// What a loop, a choice or an arm over items holds.
#[cycle(item)]
pub enum Block<'f> {
    Begin {
        name: Option<Token<'f>>,
        items: Items<Item<'f>>,
    },
    Item(Boxed<Item<'f>>),
    Empty,
}

impl<'f> Drop for Block<'f> {
    /// Lets go of what the block holds.
    #[cycle(item)]
    fn drop(self) {
        match self {
            Block::Begin { name: _, items } => let_go_all(items),
            Block::Item(item) => let_go(item),
            Block::Empty => {}
        }
    }
}

/// A list of items.
pub type ItemList<'f> = Items<Item<'f>>;

/// The arms of a `case` over items.
pub type GenArmList<'f> = Items<GenArm<'f>>;

/// A module.
pub struct Module<'f> {
    pub name: Token<'f>,
    pub parameters: Option<PdeclList<'f>>,
    pub ports: Option<Option<Ports<'f>>>,
    pub items: ItemList<'f>,
}

impl<'f> Drop for Module<'f> {
    /// Lets go of a module and of what it holds.
    fn drop(self) {
        let Module {
            name: _,
            parameters: _parameters,
            ports: _ports,
            items: _items,
        } = self;
    }
}

/// A source: its modules.
pub type Source<'f> = Items<Module<'f>>;
