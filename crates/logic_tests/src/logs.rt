use cnf_core::{TextFault, read_dimacs};
use lrat_checker::{Checked, check, make_marks, read_lrat, write_lrat};
use std::alloc::Global;
use std::test::Fail;

/// The answer for a formula and a log, both as texts; none where one does not read.
fn answer(alloc: Global, formula: &str, log: &str) -> Option<Checked> {
    let formula = read_dimacs(alloc, formula.as_bytes()).ok()?;
    let log = read_lrat(alloc, log.as_bytes()).ok()?;
    let mut marks = make_marks(alloc, &formula, &log).ok()?;
    Some(check(&formula, &log, &mut marks))
}

/// The line at which a text is refused, and 0 where it reads.
fn refused(alloc: Global, text: &[u8]) -> u64 {
    match read_lrat(alloc, text) {
        Ok(_) => 0,
        Err(TextFault::Bad { line }) => line,
        Err(TextFault::NoMemory) => u64::MAX,
    }
}

#[test]
fn checks_logs(rt: HostRuntime) {
    let alloc = rt.alloc();
    let one = "p cnf 1 2\n1 0\n-1 0\n";
    let square = "p cnf 2 4\n1 2 0\n-1 2 0\n1 -2 0\n-1 -2 0\n";
    let table: [(&str, &str, Checked); 25] = [
        (one, "3 0 1 2 0\n", Checked::Verified),
        (one, "3 0 1 0\n", Checked::Rejected(1)),
        (one, "", Checked::Rejected(1)),
        (one, "3 0 9 0\n", Checked::Rejected(1)),
        (one, "2 0 1 2 0\n", Checked::Rejected(1)),
        (one, "3 0 -1 2 0\n", Checked::Rejected(1)),
        (one, "3 0 2 1 0\n4 0 9 0\n", Checked::Verified),
        (one, "9 0 1 2 0\n", Checked::Verified),
        (
            one,
            "3 1 -1 0 0\n4 1 0 3 1 0\n5 0 1 2 0\n",
            Checked::Verified,
        ),
        (one, "3 1 -1 0 0\n4 0 1 2 0\n", Checked::Verified),
        (one, "3 d 1 0\n4 0 1 2 0\n", Checked::Rejected(2)),
        (one, "3 d 7 0\n4 0 1 2 0\n", Checked::Verified),
        (
            one,
            "3 d 0\n3 d 1 0\n3 d 1 0\n4 0 2 0\n",
            Checked::Rejected(4),
        ),
        (one, "3 d 1 2 0\n", Checked::Rejected(2)),
        (square, "5 1 0 1 3 0\n6 0 5 2 4 0\n", Checked::Verified),
        (square, "5 1 0 1 0\n6 0 5 2 4 0\n", Checked::Rejected(1)),
        (square, "6 1 0 1 3 0\n5 0 6 2 4 0\n", Checked::Rejected(2)),
        (square, "6 1 0 1 3 0\n6 0 6 2 4 0\n", Checked::Rejected(2)),
        (square, "5 1 0 1 3 0\n6 0 5 2 0\n", Checked::Rejected(2)),
        (
            square,
            "5 1 0 1 3 0\n6 d 5 0\n7 0 5 2 4 0\n",
            Checked::Rejected(3),
        ),
        (square, "5 1 1 0 1 3 0\n6 0 5 2 4 0\n", Checked::Verified),
        (square, "5 1 0 3 1 0\n", Checked::Rejected(2)),
        ("p cnf 1 1\n0\n", "", Checked::Verified),
        ("p cnf 1 2\n1 0\n0\n", "7 0 9 0\n", Checked::Verified),
        (
            "p cnf 2 3\n1 1 0\n-1 2 2 0\n-2 -2 0\n",
            "4 0 1 2 3 0\n",
            Checked::Verified,
        ),
    ];
    for (formula, log, want) in table {
        assert_eq!(rt; answer(alloc, formula, log), Some(want));
    }
}

#[test]
fn refuses_lrat_at_its_line(rt: HostRuntime) {
    let alloc = rt.alloc();
    let table: [(&str, u64); 25] = [
        ("", 0),
        ("c a\n\n \t\r\n3 0 1 2 0\ncx\n 4 d 3 0 \n", 0),
        ("003 1 00 0004 000", 0),
        (
            "9223372036854775807 1073741823 -1 0 9223372036854775807 -9223372036854775807 0\n",
            0,
        ),
        ("3 d 0\n", 0),
        ("3 0 0\n", 0),
        ("3 0 1 2\n", 1),
        ("3 1 2\n", 1),
        ("3\n", 1),
        ("3 d\n", 1),
        ("3 d 1\n", 1),
        ("3 0 1 0 1\n", 1),
        ("3 d 1 0 0\n", 1),
        ("0 0 1 0\n", 1),
        ("-3 0 1 0\n", 1),
        ("9223372036854775808 0 1 0\n", 1),
        ("3 1073741824 0 1 0\n", 1),
        ("3 -1073741824 0 1 0\n", 1),
        ("3 0 9223372036854775808 0\n", 1),
        ("3 d -1 0\n", 1),
        ("3 -0 0 1 0\n", 1),
        ("3 1 0 +1 0\n", 1),
        ("x 0 1 0\n", 1),
        ("3 0 1 0\n\nc a\n4 0 1\n", 4),
        ("3 0 1\n2 0\n", 1),
    ];
    for (text, want) in table {
        assert_eq!(rt; refused(alloc, text.as_bytes()), want);
    }
}

#[test]
fn writes_a_step_a_line(rt: HostRuntime) -> Result<(), Fail> {
    let alloc = rt.alloc();
    let log = read_lrat(alloc, b"12 1 -30 0 4\t5 0\nc\n13 d 12 4 0\n14 0 7 0")
        .ok()
        .ok_or("reads")?;
    let mut out = Vec::new(alloc);
    write_lrat(&log, &mut out).ok().ok_or("memory")?;
    assert!(rt; out.as_slice() == b"12 1 -30 0 4 5 0\n1 d 12 4 0\n14 0 7 0\n".as_slice());
    Ok(())
}
