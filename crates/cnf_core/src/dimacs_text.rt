ghost use Rattle.std.specs.Prelude.{◌≡◌, ◌++◌, OnOk, OnErr};
ghost use Rattle.cnf_core.specs.DimacsText.{clause_text, clauses_text, dimacs_text, IsInText};
ghost use Rattle.cnf_core.specs.Dimacs.{dimacs_of};

use crate::formula::{Clause, Formula};
use crate::lit::Lit;
use crate::numbers::{push_integer, push_number};
use bits_core::NoMemory;

fn push_clause(out: &mut Vec<u8>, clause: &[Lit]) -> Result<(), NoMemory>
    ensures { OnOk result (out.new.items ≡ out.old.items ++ clause_text clause.now) }
{
    for lit in clause {
        push_integer(out, i64::from(lit.value()))?;
        out.push(b' ')?;
    }
    out.extend_from_slice(b"0\n")?;
    Ok(())
}

fn push_clauses(out: &mut Vec<u8>, clauses: &[Clause]) -> Result<(), NoMemory>
    ensures { OnOk result (out.new.items ≡ out.old.items ++ clauses_text clauses.now) }
{
    for clause in clauses {
        push_clause(out, clause.as_slice())?;
    }
    Ok(())
}

fn push_formula(out: &mut Vec<u8>, formula: &Formula) -> Result<(), NoMemory>
    ensures { OnOk result (out.new.items ≡ out.old.items ++ dimacs_text formula.now) }
{
    out.extend_from_slice(b"p cnf ")?;
    push_number(out, u64::from(formula.variables))?;
    out.push(b' ')?;
    push_number(out, formula.clauses.len() as u64)?;
    out.push(b'\n')?;
    push_clauses(out, formula.clauses.as_slice())
}

/// Puts the DIMACS text of a formula at the end of `out`: the head, then a clause a line. It is read back as the formula, where a text can hold
/// it. Where memory is wanting, `out` stays as it was. Linear in the text.
pub fn write_dimacs(formula: &Formula, out: &mut Vec<u8>) -> Result<(), NoMemory>
    ensures ok { OnOk result (out.new.items ≡ out.old.items ++ dimacs_text formula.now) }
    ensures err { OnErr result (out.new.items ≡ out.old.items) }
    ensures read_back { IsInText formula.now → dimacs_of (dimacs_text formula.now) ≡ Ok formula.now }
{
    let mut text = Vec::new(*out.allocator());
    push_formula(&mut text, formula)?;
    out.extend_from_slice(text.as_slice())?;
    Ok(())
}
