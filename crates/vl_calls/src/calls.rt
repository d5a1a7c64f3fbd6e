ghost use Rattle.std.specs.Prelude.{◌≡◌, map, IfOk};
ghost use Rattle.vl_names.specs.Names.{listed};
ghost use Rattle.vl_size.specs.Chains.{IsNoBinary};
ghost use Rattle.vl_size.specs.Terms.{term, terms, picks, pick_term};
ghost use Rattle.vl_items.specs.Declarations.{added};
ghost use Rattle.vl_nets.specs.Nets.{lval_term};
ghost use Rattle.vl_acts.specs.Acts.{act, arm_act, acts_of, arms_of, option_act};
ghost use Rattle.vl_calls.specs.Called as spec;

use bits_core::NoMemory;
use sqlite_items::Boxed;
use std::alloc::Global;
use vl_names::Index;
use vl_size::{Chain, chain_of};
use vl_tree::{
    Citem, Expr, Fdecl, Function, FunctionInput, FunctionInputList, Lval, Ptype, Range, Select,
    Stmt, token_name,
};

type Names<'f> = Result<Index<'f>, NoMemory>;

fn with_name<'f>(before: Index<'f>, name: &'f [u8]) -> Names<'f>
    ensures { IfOk result (λ r. listed r ≡ added (listed before.entry) name.entry.now) }
{
    let mut names = before;
    names.add(name)?;
    Ok(names)
}

/// The names that an expression calls. The operators of a chain from the left take no stack.
#[cycle(in_expr)]
fn in_expr<'f>(expr: &Expr<'f>, alloc: Global, before: Index<'f>) -> Names<'f>
    ensures { IfOk result (λ r. listed r ≡ spec.in_term (listed before.entry) (term expr.now)) }
{
    let Chain { first, mut links } = chain_of(alloc, expr)?;
    if links.len() == 0 {
        return in_operand(expr, alloc, before);
    }
    let mut all = in_operand(first, alloc, before)?;
    while let Some(link) = links.pop() {
        all = in_expr(link.right, alloc, all)?;
    }
    Ok(all)
}

/// Those of an expression that is no operator between operands.
#[cycle(in_expr)]
fn in_operand<'f>(expr: &Expr<'f>, alloc: Global, before: Index<'f>) -> Names<'f>
    requires { IsNoBinary expr.now }
    ensures { IfOk result (λ r. listed r ≡ spec.in_term (listed before.entry) (term expr.now)) }
{
    match expr {
        Expr::Number(_) => Ok(before),
        Expr::Name { selects, .. } => in_selects(selects.as_slice(), alloc, before),
        Expr::Call { name, arguments } => {
            in_exprs(
                arguments.as_slice(),
                alloc,
                with_name(before, token_name(name))?,
            )
        }
        Expr::System { argument, .. } => in_expr(argument.get(), alloc, before),
        Expr::Concat(parts) => in_exprs(parts.as_slice(), alloc, before),
        Expr::Repeat { count, parts } => in_exprs(
            parts.as_slice(),
            alloc,
            in_expr(count.get(), alloc, before)?,
        ),
        Expr::Group(inner) => in_expr(inner.get(), alloc, before),
        Expr::Unary { operand, .. } => in_expr(operand.get(), alloc, before),
        Expr::Binary { .. } => unreachable!(),
        Expr::Choice { test, yes, no } => {
            let all = in_expr(test.get(), alloc, before)?;
            let all = in_expr(yes.get(), alloc, all)?;
            in_expr(no.get(), alloc, all)
        }
    }
}

#[cycle(in_expr)]
fn in_exprs<'f>(exprs: &[Expr<'f>], alloc: Global, before: Index<'f>) -> Names<'f>
    ensures { IfOk result (λ r. listed r ≡ spec.in_terms (listed before.entry) (terms (map term exprs.now))) }
{
    let mut all = before;
    for expr in exprs {
        all = in_expr(expr, alloc, all)?;
    }
    Ok(all)
}

#[cycle(in_expr)]
fn in_select<'f>(select: &Select<'f>, alloc: Global, before: Index<'f>) -> Names<'f>
    ensures { IfOk result (λ r. listed r ≡ spec.in_pick (listed before.entry) (pick_term select.now)) }
{
    match select {
        Select::Index(index) => in_expr(index, alloc, before),
        Select::Range(first, second) | Select::Up(first, second) | Select::Down(first, second) => {
            in_expr(second, alloc, in_expr(first, alloc, before)?)
        }
    }
}

#[cycle(in_expr)]
fn in_selects<'f>(selects: &[Select<'f>], alloc: Global, before: Index<'f>) -> Names<'f>
    ensures { IfOk result (λ r. listed r ≡ spec.in_picks (listed before.entry) (picks (map pick_term selects.now))) }
{
    let mut all = before;
    for select in selects {
        all = in_select(select, alloc, all)?;
    }
    Ok(all)
}

#[cycle(in_lval)]
fn in_lval<'f>(lval: &Lval<'f>, alloc: Global, before: Index<'f>) -> Names<'f>
    ensures { IfOk result (λ r. listed r ≡ spec.in_term (listed before.entry) (lval_term lval.now)) }
{
    match lval {
        Lval::Name { selects, .. } => in_selects(selects.as_slice(), alloc, before),
        Lval::Concat(parts) => in_lvals(parts.as_slice(), alloc, before),
    }
}

#[cycle(in_lval)]
fn in_lvals<'f>(lvals: &[Lval<'f>], alloc: Global, before: Index<'f>) -> Names<'f>
    ensures { IfOk result (λ r. listed r ≡ spec.in_terms (listed before.entry) (terms (map lval_term lvals.now))) }
{
    let mut all = before;
    for lval in lvals {
        all = in_lval(lval, alloc, all)?;
    }
    Ok(all)
}

#[cycle(in_stmt)]
fn in_stmt<'f>(stmt: &Stmt<'f>, alloc: Global, before: Index<'f>) -> Names<'f>
    ensures { IfOk result (λ r. listed r ≡ spec.in_act (listed before.entry) (act stmt.now)) }
{
    match stmt {
        Stmt::Empty => Ok(before),
        Stmt::Begin { body, .. } => in_stmts(body.as_slice(), alloc, before),
        Stmt::If { test, yes, no } => {
            let all = in_expr(test, alloc, before)?;
            let all = in_stmt(yes.get(), alloc, all)?;
            in_else(no, alloc, all)
        }
        Stmt::Case {
            selector,
            items,
            ..
        } => in_citems(items.as_slice(), alloc, in_expr(selector, alloc, before)?),
        Stmt::For {
            start,
            test,
            step,
            body,
            ..
        } => {
            let all = in_expr(start.get(), alloc, before)?;
            let all = in_expr(test.get(), alloc, all)?;
            let all = in_expr(step.get(), alloc, all)?;
            in_stmt(body.get(), alloc, all)
        }
        Stmt::Assign { left, right, .. } => in_expr(right, alloc, in_lval(left, alloc, before)?),
    }
}

#[cycle(in_stmt)]
fn in_else<'f>(no: &Option<Boxed<Stmt<'f>>>, alloc: Global, before: Index<'f>) -> Names<'f>
    ensures { IfOk result (λ r. listed r ≡ spec.in_act (listed before.entry) (option_act no.now)) }
{
    match no {
        None => Ok(before),
        Some(stmt) => in_stmt(stmt.get(), alloc, before),
    }
}

#[cycle(in_stmt)]
fn in_stmts<'f>(stmts: &[Stmt<'f>], alloc: Global, before: Index<'f>) -> Names<'f>
    ensures { IfOk result (λ r. listed r ≡ spec.in_acts (listed before.entry) (acts_of (map act stmts.now))) }
{
    let mut all = before;
    for stmt in stmts {
        all = in_stmt(stmt, alloc, all)?;
    }
    Ok(all)
}

#[cycle(in_stmt)]
fn in_citem<'f>(item: &Citem<'f>, alloc: Global, before: Index<'f>) -> Names<'f>
    ensures { IfOk result (λ r. listed r ≡ spec.in_arm (listed before.entry) (arm_act item.now)) }
{
    match item {
        Citem::Match { values, body } => in_stmt(
            body,
            alloc,
            in_exprs(values.as_slice(), alloc, before)?,
        ),
        Citem::Default(body) => in_stmt(body, alloc, before),
    }
}

#[cycle(in_stmt)]
fn in_citems<'f>(items: &[Citem<'f>], alloc: Global, before: Index<'f>) -> Names<'f>
    ensures { IfOk result (λ r. listed r ≡ spec.in_arms (listed before.entry) (arms_of (map arm_act items.now))) }
{
    let mut all = before;
    for item in items {
        all = in_citem(item, alloc, all)?;
    }
    Ok(all)
}

fn in_range<'f>(range: &Option<Range<'f>>, alloc: Global, before: Index<'f>) -> Names<'f>
    ensures { IfOk result (λ r. listed r ≡ spec.in_range (listed before.entry) range.now) }
{
    match range {
        None => Ok(before),
        Some(range) => in_expr(&range.right, alloc, in_expr(&range.left, alloc, before)?),
    }
}

fn in_type<'f>(ptype: &Option<Ptype<'f>>, alloc: Global, before: Index<'f>) -> Names<'f>
    ensures { IfOk result (λ r. listed r ≡ spec.in_type (listed before.entry) ptype.now) }
{
    match ptype {
        None => Ok(before),
        Some(Ptype::Integer) => Ok(before),
        Some(Ptype::Vector { range, .. }) => in_range(range, alloc, before),
    }
}

fn in_inputs<'f>(inputs: &[FunctionInput<'f>], alloc: Global, before: Index<'f>) -> Names<'f>
    ensures { IfOk result (λ r. listed r ≡ spec.in_inputs (listed before.entry) inputs.now) }
{
    let mut all = before;
    for input in inputs {
        all = in_range(&input.range, alloc, all)?;
    }
    Ok(all)
}

fn in_head<'f>(
    inputs: &Option<FunctionInputList<'f>>,
    alloc: Global,
    before: Index<'f>,
) -> Names<'f>
    ensures { IfOk result (λ r. listed r ≡ spec.in_head (listed before.entry) inputs.now) }
{
    match inputs {
        None => Ok(before),
        Some(inputs) => in_inputs(inputs.as_slice(), alloc, before),
    }
}

fn in_declaration<'f>(declaration: &Fdecl<'f>, alloc: Global, before: Index<'f>) -> Names<'f>
    ensures { IfOk result (λ r. listed r ≡ spec.in_declaration (listed before.entry) declaration.now) }
{
    match declaration {
        Fdecl::Vector { range, .. } => in_range(range, alloc, before),
        Fdecl::Integer(_) => Ok(before),
    }
}

fn in_declarations<'f>(declarations: &[Fdecl<'f>], alloc: Global, before: Index<'f>) -> Names<'f>
    ensures { IfOk result (λ r. listed r ≡ spec.in_declarations (listed before.entry) declarations.now) }
{
    let mut all = before;
    for declaration in declarations {
        all = in_declaration(declaration, alloc, all)?;
    }
    Ok(all)
}

/// The names that the text of a function calls, each once, in its ranges and in its body. Linear in the function.
pub fn called<'f>(function: &Function<'f>, alloc: Global) -> Names<'f>
    ensures { IfOk result (λ r. listed r ≡ spec.called function.now) }
{
    let all = in_type(&function.result_type, alloc, Index::new(alloc))?;
    let all = in_head(&function.inputs, alloc, all)?;
    let all = in_declarations(function.declarations.as_slice(), alloc, all)?;
    in_stmt(function.body.get(), alloc, all)
}
