use log_verdict::{LogAnswer, judge_one, judge_two};
use std::test::Fail;

#[test]
fn small_texts(rt: HostRuntime) -> Result<(), Fail> {
    let alloc = rt.alloc();
    let formula = b"p cnf 1 2\n1 0\n-1 0\n";
    for (log, want) in [
        (&b"3 0 1 2 0\n"[..], LogAnswer::Verified),
        (&b"3 0 1 0\n"[..], LogAnswer::Rejected(1)),
        (&b""[..], LogAnswer::Rejected(1)),
        (&b"c a\n3 0 1 2\n"[..], LogAnswer::BadLog(2)),
    ] {
        assert_eq!(rt; judge_two(alloc, formula, log).ok(), Some(want));
    }
    for (text, want) in [
        (
            &b"p cnf 1 2\n1 0\n-1 0\nc proof\n3 0 1 2 0\nc next\nx\n"[..],
            LogAnswer::Verified,
        ),
        (
            &b"p cnf 1 2\n1 0\n-1 0\nc proof\n3 0 1 0\n"[..],
            LogAnswer::Rejected(1),
        ),
        (
            &b"p cnf 1 2\n1 0\n-1 0\nc proof\nx\n"[..],
            LogAnswer::BadLog(5),
        ),
        (&b"c proof\n3 0 1 2 0\n"[..], LogAnswer::BadFormula(1)),
        (&b"p cnf 1 1\n0\n"[..], LogAnswer::Verified),
    ] {
        assert_eq!(rt; judge_one(alloc, text).ok(), Some(want));
    }
    Ok(())
}
