ghost use Rattle.std.specs.Prelude.{◌≡◌, ◌&&◌, IfOk, map};
ghost use Rattle.std.specs.Option.{option_copied};
ghost use Rattle.vl_size.specs.Chains.{IsNoBinary};
ghost use Rattle.vl_size.specs.Nodes.{is_kind as is_kind_of};
ghost use Rattle.vl_size.specs.Terms.{term, pick_term, terms, picks};
ghost use Rattle.vl_elab_trees.specs.Calls as spec;

use crate::scope::Scope;
use bits_core::NoMemory;
use std::alloc::Global;
use vl_size::{Chain, NameKind, SizeEntry, chain_of};
use vl_tree::{Expr, Select, token_name};

fn is_kind(kind: NameKind, other: NameKind) -> bool
    ensures { result ≡ is_kind_of kind other }
{
    kind == other
}

fn takes(entry: Option<&SizeEntry>, count: usize) -> bool
    ensures { result ≡ spec.takes (option_copied entry.entry) count }
{
    match entry {
        None => true,
        Some(entry) => !is_kind(entry.kind, NameKind::Function) || count == entry.inputs.len(),
    }
}

fn both(first: bool, second: bool) -> bool
    ensures { result ≡ (first && second) }
{
    first && second
}

/// Whether each call in an expression has as many arguments as its function has inputs. Linear in the tree, but for look-ups; the operators of a chain from
/// the left take no stack.
#[cycle(calls_fit)]
pub fn calls_fit<S: Scope>(alloc: Global, scope: &S, expr: &Expr) -> Result<bool, NoMemory>
    ensures { IfOk result (λ r. r ≡ spec.calls_fit (S.meaning scope.now).known.look (term expr.now)) }
{
    let Chain { first, mut links } = chain_of(alloc, expr)?;
    if links.len() == 0 {
        return operand_fits(alloc, scope, expr);
    }
    let mut all = operand_fits(alloc, scope, first)?;
    while let Some(link) = links.pop() {
        let right = calls_fit(alloc, scope, link.right)?;
        all = both(all, right);
    }
    Ok(all)
}

/// An expression that is no operator between operands.
#[cycle(calls_fit)]
fn operand_fits<S: Scope>(alloc: Global, scope: &S, expr: &Expr) -> Result<bool, NoMemory>
    requires { IsNoBinary expr.now }
    ensures { IfOk result (λ r. r ≡ spec.calls_fit (S.meaning scope.now).known.look (term expr.now)) }
{
    match expr {
        Expr::Number(_) => Ok(true),
        Expr::Name { selects, .. } => picks_fit(alloc, scope, selects.as_slice()),
        Expr::Call { name, arguments } => {
            let arguments = arguments.as_slice();
            let here = takes(scope.entry(token_name(name)), arguments.len());
            let inside = all_calls_fit(alloc, scope, arguments)?;
            Ok(both(here, inside))
        }
        Expr::System { argument, .. } => calls_fit(alloc, scope, argument.get()),
        Expr::Concat(parts) => all_calls_fit(alloc, scope, parts.as_slice()),
        Expr::Repeat { parts, .. } => all_calls_fit(alloc, scope, parts.as_slice()),
        Expr::Group(inner) => calls_fit(alloc, scope, inner.get()),
        Expr::Unary { operand, .. } => calls_fit(alloc, scope, operand.get()),
        Expr::Binary { .. } => unreachable!(),
        Expr::Choice { test, yes, no } => {
            let test = calls_fit(alloc, scope, test.get())?;
            let yes = calls_fit(alloc, scope, yes.get())?;
            let no = calls_fit(alloc, scope, no.get())?;
            Ok(both(test, both(yes, no)))
        }
    }
}

/// A name with its selects.
#[cycle(calls_fit)]
pub fn picks_fit<S: Scope>(alloc: Global, scope: &S, selects: &[Select]) -> Result<bool, NoMemory>
    ensures { IfOk result (λ r. r ≡ spec.picks_fit (S.meaning scope.now).known.look (picks (map pick_term selects.now))) }
{
    match selects {
        [] => Ok(true),
        [select, ..] => pick_fits(alloc, scope, select),
    }
}

#[cycle(calls_fit)]
fn pick_fits<S: Scope>(alloc: Global, scope: &S, select: &Select) -> Result<bool, NoMemory>
    ensures { IfOk result (λ r. r ≡ spec.pick_fits (S.meaning scope.now).known.look (pick_term select.now)) }
{
    match select {
        Select::Range(_, _) => Ok(true),
        Select::Index(index) | Select::Up(index, _) | Select::Down(index, _) => {
            calls_fit(alloc, scope, index)
        }
    }
}

#[cycle(calls_fit)]
fn all_calls_fit<S: Scope>(alloc: Global, scope: &S, parts: &[Expr]) -> Result<bool, NoMemory>
    ensures { IfOk result (λ r. r ≡ spec.all_calls_fit (S.meaning scope.now).known.look (terms (map term parts.now))) }
{
    for part in parts {
        if !calls_fit(alloc, scope, part)? {
            return Ok(false);
        }
    }
    Ok(true)
}
