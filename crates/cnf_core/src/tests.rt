use crate::fault::TextFault;
use crate::{read_dimacs, write_dimacs};
use std::alloc::Global;
use std::test::Fail;

/// The line at which a text is refused, and 0 where it reads.
fn refused(alloc: Global, text: &[u8]) -> u64 {
    match read_dimacs(alloc, text) {
        Ok(_) => 0,
        Err(TextFault::Bad { line }) => line,
        Err(TextFault::NoMemory) => u64::MAX,
    }
}

#[test]
fn refuses_dimacs_at_its_line(rt: HostRuntime) {
    let alloc = rt.alloc();
    let table: [(&str, u64); 29] = [
        ("p cnf 1 2\n1 0\n-1 0\n", 0),
        ("c a\n\n \t\r\np cnf 2 1\ncnf\n1\n\n-2 0", 0),
        ("p cnf 0 1\n0\n", 0),
        ("p cnf 007 01\n\t007 00\r\n", 0),
        ("p\n cnf\n1\n1\n1\n0\n", 0),
        ("p cnf 1073741823 0", 0),
        ("p\ncnf\n1\n1\n1\n0\n", 3),
        ("", 1),
        ("\n\n", 2),
        ("c a\n", 1),
        ("p cnf 1", 1),
        ("p cnf 1 1\n1", 2),
        ("p cnf 1 1\n1\n\n", 3),
        ("p cnf 1 2\n1 0\n", 2),
        ("p cnf 1 1\n1 0\n1 0\n", 3),
        ("p cnf 1 0\n0\n", 2),
        ("q cnf 1 1\n1 0\n", 1),
        ("p dnf 1 1\n1 0\n", 1),
        ("p cnf x 1\n1 0\n", 1),
        ("p cnf 1 -1\n1 0\n", 1),
        ("p cnf 1073741824 1\n1 0\n", 1),
        ("p cnf 1 1073741824\n1 0\n", 1),
        ("p cnf 99999999999999999999999 1\n1 0\n", 1),
        ("p cnf 2 1\n1\n3 0\n", 3),
        ("p cnf 2 1\n-3 0\n", 2),
        ("p cnf 2 1\n1 -0\n", 2),
        ("p cnf 2 1\n+1 0\n", 2),
        ("p cnf 2 1\n1 - 0\n", 2),
        (" c a\np cnf 1 1\n1 0\n", 1),
    ];
    for (text, want) in table {
        assert_eq!(rt; refused(alloc, text.as_bytes()), want);
    }
}

#[test]
fn writes_a_clause_a_line(rt: HostRuntime) -> Result<(), Fail> {
    let alloc = rt.alloc();
    let formula = read_dimacs(alloc, b"c x\np cnf 30 3\n1 -2\n0 30 0 0")
        .ok()
        .ok_or("reads")?;
    let mut out = Vec::new(alloc);
    write_dimacs(&formula, &mut out).ok().ok_or("memory")?;
    assert!(rt; out.as_slice() == b"p cnf 30 3\n1 -2 0\n30 0\n0\n".as_slice());
    Ok(())
}
