ghost use Rattle.std.specs.Prelude.{◌≡◌, ◌++◌, OnOk, OnErr};
ghost use Rattle.cnf_core.specs.Numbers.{numbers_text};
ghost use Rattle.lrat_checker.specs.LratText.{step_text, log_text, LogInText};
ghost use Rattle.lrat_checker.specs.Lrat.{lrat_of};

use bits_core::NoMemory;
use cnf_core::{Lit, Log, Step, push_integer, push_number};

fn push_literals(out: &mut Vec<u8>, lits: &[Lit]) -> Result<(), NoMemory>
    ensures { OnOk result (out.new.items ≡ out.old.items ++ numbers_text lits.now) }
{
    for lit in lits {
        push_integer(out, i64::from(lit.value()))?;
        out.push(b' ')?;
    }
    out.push(b'0')?;
    Ok(())
}

fn push_ids(out: &mut Vec<u8>, ids: &[i64]) -> Result<(), NoMemory>
    ensures { OnOk result (out.new.items ≡ out.old.items ++ numbers_text ids.now) }
{
    for id in ids {
        push_integer(out, *id)?;
        out.push(b' ')?;
    }
    out.push(b'0')?;
    Ok(())
}

fn push_step(out: &mut Vec<u8>, step: &Step) -> Result<(), NoMemory>
    ensures { OnOk result (out.new.items ≡ out.old.items ++ step_text step.now) }
{
    match step {
        Step::Add { id, lits, hints } => {
            push_number(out, *id)?;
            out.push(b' ')?;
            push_literals(out, lits.as_slice())?;
            out.push(b' ')?;
            push_ids(out, hints.as_slice())?;
        }
        Step::Delete { ids } => {
            out.extend_from_slice(b"1 d ")?;
            push_ids(out, ids.as_slice())?;
        }
    }
    out.push(b'\n')?;
    Ok(())
}

fn push_steps(out: &mut Vec<u8>, steps: &[Step]) -> Result<(), NoMemory>
    ensures { OnOk result (out.new.items ≡ out.old.items ++ log_text steps.now) }
{
    for step in steps {
        push_step(out, step)?;
    }
    Ok(())
}

/// Puts the LRAT text of a log at the end of `out`, a step a line; a deletion has the id 1, which says nothing. It is read back as the log, where a text can
/// hold it. Where memory is
/// wanting, `out` stays as it was. Linear in the text.
pub fn write_lrat(log: &Log, out: &mut Vec<u8>) -> Result<(), NoMemory>
    ensures ok { OnOk result (out.new.items ≡ out.old.items ++ log_text log.now) }
    ensures err { OnErr result (out.new.items ≡ out.old.items) }
    ensures read_back { LogInText log.now → lrat_of (log_text log.now) ≡ Ok log.now }
{
    let mut text = Vec::new(*out.allocator());
    push_steps(&mut text, log.as_slice())?;
    out.extend_from_slice(text.as_slice())?;
    Ok(())
}
