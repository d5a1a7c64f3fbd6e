ghost use Rattle.std.specs.Prelude.{IfOk, map};
ghost use Rattle.design_core.specs.Formed.{IsFormed};
ghost use Rattle.stmt_exec.specs.Runs.{AreValues, AreWorth, IsPlain};
ghost use Rattle.stmt_exec.specs.State.{expr_value};
ghost use Rattle.tree_parts.specs.Parts.{operands_of};
ghost use Rattle.value_domain.specs.Meaning.{Keeps, Stands};

use crate::frame::signed_by;
use bits_core::NoMemory;
use design_core::{DExpr, DNode};
use std::alloc::Global;
use tree_parts::signal_of;
use value_domain::{Domain, Start, Word, concatenate, repeat, select_at};

/// The value of an expression other than a call, from the values of its operands and of the signals and locals that it names
/// (IEEE 1364-2005, 5.1 and 5.2). Costs what the operator costs.
pub fn combine<D: Domain>(
    alloc: Global,
    domain: &mut D,
    e: &DExpr,
    words: &[Word<D::Value>],
    signals: &[D::Value],
    locals: &[D::Value],
) -> Result<D::Value, NoMemory>
    requires values { AreValues D.meaning domain.old signals.now locals.now }
    requires formed { IsFormed (map D.meaning.width signals.now) (map D.meaning.width locals.now) e.now }
    requires plain { IsPlain e.now }
    requires worth { AreWorth D.meaning domain.old domain.old signals.now locals.now (operands_of e.now) words.now }
    ensures made { IfOk result (λ r. Stands D.meaning domain.new r e.now.length (expr_value D.meaning domain.old signals.now locals.now e.now)) }
    ensures kept { Keeps D.meaning domain.old domain.new }
{
    match &e.node {
        DNode::Const(bits) => domain.constant(bits),
        DNode::Signal(s) => domain.copy(&signals[*s as usize]),
        DNode::Local(k) => domain.copy(&locals[*k as usize]),
        DNode::Select { base, low } => match signal_of(base.get()) {
            Some(s) => domain.select(&signals[s as usize], *low, e.length),
            None => domain.select(&words[0].value, *low, e.length),
        },
        DNode::SelectAt {
            index,
            offset,
            down,
            ..
        } => {
            let start = Start {
                offset: *offset,
                down: *down,
                signed: index.get().signed,
            };
            select_at(alloc, domain, &words[0].value, &words[1], start, e.length)
        }
        DNode::Unary { op, .. } => domain.unary(*op, &words[0].value),
        DNode::Binary { op, a, b } => {
            let signed = signed_by(*op, e.signed, a.get().signed, b.get().signed);
            domain.binary(*op, &words[0].value, &words[1].value, signed)
        }
        DNode::Mux { .. } => domain.mux(&words[0].value, &words[1].value, &words[2].value),
        DNode::Extend { by_sign, .. } => domain.extend(&words[0].value, e.length, *by_sign),
        DNode::Concat(_) => {
            let Word { value, .. } = concatenate(domain, words)?;
            Ok(value)
        }
        DNode::Repeat { count, .. } => {
            let Word { value, .. } = repeat(domain, *count, &words[0])?;
            Ok(value)
        }
        DNode::Call { .. } => unreachable!(),
    }
}
