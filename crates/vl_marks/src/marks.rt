ghost use Rattle.std.specs.Prelude.{◌≡◌, IfOk};
ghost use Rattle.vl_names.specs.Names.{listed};
ghost use Rattle.vl_items.specs.Declarations.{added};
ghost use Rattle.vl_marks.specs.Marks as spec;

use bits_core::{Items, Name, NoMemory};
use std::alloc::Global;
use vl_names::Index;
use vl_tree::Code;

/// What stands in a scope's text, in order: a fault, or the name of an instance or of a block that is taken.
#[derive(Drop)]
pub enum Mark {
    Fault(Code),
    Named(Name),
}

/// The marks of a scope.
pub type MarkList = Items<Mark>;

/// The first fault among some marks, and the names among them.
#[derive(Drop)]
struct Behind<'m> {
    fault: Option<Code>,
    names: Index<'m>,
}

fn with_name<'m>(names: &Index, name: &'m [u8], behind: Behind<'m>) -> Result<Behind<'m>, NoMemory>
    ensures fault { IfOk result (λ r. r.fault ≡ spec.fault_at_name (listed names.now) name.entry.now behind.entry.fault (listed behind.entry.names)) }
    ensures names { IfOk result (λ r. listed r.names ≡ added (listed behind.entry.names) name.entry.now) }
{
    let Behind {
        fault,
        names: mut later,
    } = behind;
    let declared = names.has(name);
    let is_new = later.add(name)?;
    Ok(Behind {
        fault: if declared || !is_new {
            Some(Code::NameClash)
        } else {
            fault
        },
        names: later,
    })
}

fn with_mark<'m>(mark: &'m Mark, names: &Index, behind: Behind<'m>) -> Result<Behind<'m>, NoMemory>
    ensures fault { IfOk result (λ r. r.fault ≡ spec.fault_at (listed names.now) mark.entry.now behind.entry.fault (listed behind.entry.names)) }
    ensures names { IfOk result (λ r. listed r.names ≡ spec.names_at mark.entry.now (listed behind.entry.names)) }
{
    match mark {
        Mark::Fault(code) => Ok(Behind {
            fault: Some(*code),
            names: behind.names,
        }),
        Mark::Named(name) => with_name(names, name.as_slice(), behind),
    }
}

/// The first fault of a scope that declares these names. The name of an instance or a block that something else in the scope has is one too
/// (E13; IEEE 1364-2005, 12.7). Linear in the marks.
pub fn first_fault(marks: &[Mark], alloc: Global, names: &Index) -> Result<Option<Code>, NoMemory>
    ensures { IfOk result (λ r. r ≡ spec.first_fault (listed names.now) marks.now) }
{
    let mut behind = Behind {
        fault: None,
        names: Index::new(alloc),
    };
    for turn in 0..marks.len() {
        behind = with_mark(&marks[marks.len() - 1 - turn], names, behind)?;
    }
    Ok(behind.fault)
}
