use bits_core::{File, FileList, Items, NoMemory};
use conncheck::{Status, run};
use shelf_io::{MemShelf, MemSink};
use std::alloc::{AllocError, Global};
use std::test::Fail;

const MODULE: &[u8] = b"module m(input a, output y); assign y = a; endmodule";

const ROW: &[u8] = b"CONNECTION,c1,m,a,m,y";

const PROVED: &[u8] = b"PROVED c1\nTOTAL 1 proved 1 refuted 0 open 0 spent 0 large 0\n";

fn words(alloc: Global, line: &[&str]) -> Result<Vec<String>, AllocError> {
    let mut words = Vec::new(alloc);
    for word in line {
        words.push(String::from_str(alloc, word)?)?;
    }
    Ok(words)
}

fn file(alloc: Global, name: &[u8], text: &[u8]) -> Result<File, AllocError> {
    Ok(File {
        name: Items::of(name.to_vec(alloc)?),
        bytes: Items::of(text.to_vec(alloc)?),
    })
}

// A table `t.csv` and, unless it is empty, a source `m.v`.
fn files(alloc: Global, table: &[u8], source: &[u8]) -> Result<FileList, NoMemory> {
    let mut files = Items::new(alloc);
    files.push(file(alloc, b"t.csv", table)?)?;
    if !source.is_empty() {
        files.push(file(alloc, b"m.v", source)?)?;
    }
    Ok(files)
}

// The status and the text of a call; the write of this number fails.
fn call(
    alloc: Global,
    line: &[&str],
    table: &[u8],
    source: &[u8],
    failing: Option<u64>,
) -> Result<(Status, Vec<u8>), NoMemory> {
    let line = words(alloc, line)?;
    let mut numbers = Vec::new(alloc);
    if let Some(number) = failing {
        numbers.push(number)?;
    }
    let mut shelf = MemShelf::new(files(alloc, table, source)?, Vec::new(alloc));
    let mut sink = MemSink::new(alloc, 400, numbers)?;
    let status = run(alloc, line.as_slice(), &mut shelf, &mut sink);
    Ok((status, sink.taken().to_vec(alloc)?))
}

// Whether `check --top m --table t.csv m.v` ends so.
fn ends(
    alloc: Global,
    table: &[u8],
    source: &[u8],
    want: Status,
    text: &[u8],
) -> Result<bool, NoMemory> {
    let line = ["check", "--top", "m", "--table", "t.csv", "m.v"];
    let (status, taken) = call(alloc, &line, table, source, None)?;
    Ok(status == want && taken.as_slice() == text)
}

#[test]
fn rows_over_plain_modules(rt: HostRuntime) -> Result<(), Fail> {
    let alloc = rt.alloc();
    let refuted =
        b"REFUTED c1 launch 0\n  input 0 m.a 1\nTOTAL 1 proved 0 refuted 1 open 0 spent 0 large 0\n".as_slice();
    let nothing = b"TOTAL 0 proved 0 refuted 0 open 0 spent 0 large 0\n".as_slice();
    let zero = b"module m(input a, output y); assign y = 1'b0; endmodule".as_slice();
    let one = b"module m(input a, output y); assign y = 1'b1; endmodule".as_slice();
    let quiet =
        b"REFUTED c1 launch 0\nTOTAL 1 proved 0 refuted 1 open 0 spent 0 large 0\n".as_slice();
    assert!(rt; ends(alloc, ROW, MODULE, Status::Done, PROVED)?);
    assert!(rt; ends(alloc, ROW, zero, Status::Findings, refuted)?);
    assert!(rt; ends(alloc, ROW, one, Status::Findings, quiet)?);
    assert!(rt; ends(alloc, b"# none", MODULE, Status::Done, nothing)?);
    assert!(rt; ends(alloc, b"", MODULE, Status::Done, nothing)?);
    Ok(())
}

#[test]
fn two_free_ports_and_several_rows(rt: HostRuntime) -> Result<(), Fail> {
    let alloc = rt.alloc();
    let source =
        b"module m ( output y,input\tb , input a,output z );\nassign y=b ;endmodule\n".as_slice();
    let table =
        b"CONNECTION,c1,m,a,m,y\n\n# c\nCONNECTION,c2,m,b,m,y\nCONNECTION,c3,m,y,m,z\n".as_slice();
    let text =
        b"REFUTED c1 launch 0\n  input 0 m.a 1\nPROVED c2\nREFUTED c3 launch 0\n  input 0 m.z 1\nTOTAL 3 proved 1 refuted 2 open 0 spent 0 large 0\n".as_slice();
    assert!(rt; ends(alloc, table, source, Status::Findings, text)?);
    Ok(())
}

#[test]
fn refusals(rt: HostRuntime) -> Result<(), Fail> {
    let alloc = rt.alloc();
    let source = b"REFUSED E00 NotYet\nAT m.v\n".as_slice();
    let table = b"REFUSED E00 NotYet\nAT t.csv\n".as_slice();
    let twice = b"CONNECTION,c1,m,a,m,y\nCONNECTION,c1,m,a,m,y".as_slice();
    assert!(rt;
        ends(
            alloc,
            b"x",
            b"module n(input a);endmodule",
            Status::Refused,
            source
        )?
    );
    assert!(rt;
        ends(
            alloc,
            ROW,
            b"module m(input a,output y);assign y=y;endmodule",
            Status::Refused,
            source
        )?
    );
    assert!(rt;
        ends(
            alloc,
            ROW,
            b"module m(input a,output reg z);endmodule",
            Status::Refused,
            source
        )?
    );
    assert!(rt;
        ends(
            alloc,
            b"CONNECTION,c1,m,a,m,z",
            MODULE,
            Status::Refused,
            table
        )?
    );
    assert!(rt; ends(alloc, twice, MODULE, Status::Refused, table)?);
    assert!(rt; ends(alloc, ROW, b"", Status::ReadFault, b"READFAULT m.v\n")?);
    Ok(())
}

#[test]
fn other_ends(rt: HostRuntime) -> Result<(), Fail> {
    let alloc = rt.alloc();
    let swapped = ["check", "--table", "t.csv", "--top", "m", "m.v"];
    let short = ["check", "--top", "m"];
    let (status, taken) = call(alloc, &swapped, ROW, MODULE, None)
        .ok()
        .ok_or("memory")?;
    assert_eq!(rt; status, Status::Done);
    assert!(rt; taken.as_slice() == PROVED);
    let (status, taken) = call(alloc, &short, ROW, MODULE, None).ok().ok_or("memory")?;
    assert_eq!(rt; status, Status::BadWords);
    assert!(rt; taken.as_slice() == b"BADWORDS\n".as_slice());
    let (status, taken) = call(alloc, &swapped, ROW, MODULE, Some(0))
        .ok()
        .ok_or("memory")?;
    assert_eq!(rt; status, Status::WriteFault);
    assert!(rt; taken.is_empty());
    let (status, taken) = call(alloc, &swapped, ROW, MODULE, Some(1))
        .ok()
        .ok_or("memory")?;
    assert_eq!(rt; status, Status::WriteFault);
    assert!(rt; taken.as_slice() == b"PROVED c1\n".as_slice());
    Ok(())
}

#[test]
fn a_file_that_is_too_long(rt: HostRuntime) -> Result<(), Fail> {
    let alloc = rt.alloc();
    let long = vec![in alloc; b' '; 16_777_217]?;
    assert!(rt;
        ends(
            alloc,
            ROW,
            long.as_slice(),
            Status::Limit,
            b"LIMIT L01 FileBytes 16777216\n"
        )?
    );
    Ok(())
}

// Whether `lrat t.csv m.v` ends so, over a formula and a log of these names.
fn judged(
    alloc: Global,
    formula: &[u8],
    log: &[u8],
    want: Status,
    text: &[u8],
) -> Result<bool, NoMemory> {
    let line = ["lrat", "t.csv", "m.v"];
    let (status, taken) = call(alloc, &line, formula, log, None)?;
    Ok(status == want && taken.as_slice() == text)
}

#[test]
fn logs_against_formulas(rt: HostRuntime) -> Result<(), Fail> {
    let alloc = rt.alloc();
    let formula = b"p cnf 1 2\n1 0\n-1 0\n".as_slice();
    let whole = b"3 0 1 2 0\n".as_slice();
    for (log, want, text) in [
        (whole, Status::Done, b"VERIFIED\n".as_slice()),
        (
            b"3 0 1 0\n".as_slice(),
            Status::Findings,
            b"REJECTED 1\n".as_slice(),
        ),
        (
            b"3 0 9 0\n".as_slice(),
            Status::Findings,
            b"REJECTED 1\n".as_slice(),
        ),
        (
            b"2 0 1 2 0\n".as_slice(),
            Status::Findings,
            b"REJECTED 1\n".as_slice(),
        ),
        (
            b"3 0 -1 2 0\n".as_slice(),
            Status::Findings,
            b"REJECTED 1\n".as_slice(),
        ),
        (
            b"\n".as_slice(),
            Status::Findings,
            b"REJECTED 1\n".as_slice(),
        ),
        (
            b"3 d 1 0\n4 0 1 2 0".as_slice(),
            Status::Findings,
            b"REJECTED 2\n".as_slice(),
        ),
        (
            b"".as_slice(),
            Status::ReadFault,
            b"READFAULT m.v\n".as_slice(),
        ),
    ] {
        assert!(rt; judged(alloc, formula, log, want, text)?);
    }
    let cut = b"REFUSED C18 BadLrat\nAT line 1\n".as_slice();
    for end in 1..9 {
        assert!(rt; judged(alloc, formula, &whole[..end], Status::Refused, cut)?);
    }
    let short = b"REFUSED C17 BadDimacs\nAT line 2\n".as_slice();
    assert!(rt; judged(alloc, b"p cnf 1 2\n1 0\n", whole, Status::Refused, short)?);
    let one = b"p cnf 1 2\n1 0\n-1 0\nc proof\n3 0 1 2 0\n".as_slice();
    let (status, taken) = call(alloc, &["lrat", "t.csv"], one, b"", None)
        .ok()
        .ok_or("memory")?;
    assert_eq!(rt; status, Status::Done);
    assert!(rt; taken.as_slice() == b"VERIFIED\n".as_slice());
    Ok(())
}

// Whether `check` with these words before the source ends so.
fn ends_with(
    alloc: Global,
    line: &[&str],
    source: &[u8],
    want: Status,
    text: &[u8],
) -> Result<bool, NoMemory> {
    let (status, taken) = call(alloc, line, ROW, source, None)?;
    Ok(status == want && taken.as_slice() == text)
}

#[test]
fn directives_of_a_source(rt: HostRuntime) -> Result<(), Fail> {
    let alloc = rt.alloc();
    let refuted =
        b"REFUTED c1 launch 0\n  input 0 m.a 1\nTOTAL 1 proved 0 refuted 1 open 0 spent 0 large 0\n".as_slice();
    for (source, want, text) in [
        (
            b"`define V 1'b0\nmodule m(input a, output y); assign y = `V; /* 0 */ endmodule".as_slice(),
            Status::Findings,
            refuted,
        ),
        (
            b"module m(input a, output y); assign y = `W; endmodule".as_slice(),
            Status::Refused,
            b"REFUSED E06 Directive\nAT m.v 1\n".as_slice(),
        ),
        (
            b"module m(input a, output y); assign y = a; endmodule /*".as_slice(),
            Status::Refused,
            b"REFUSED E02 Unclosed\nAT m.v 1\n".as_slice(),
        ),
        (
            b"module m(input a, output y);\nassign y = 1'bx; endmodule".as_slice(),
            Status::Refused,
            b"REFUSED E04 LeftOut\nAT m.v 2\n".as_slice(),
        ),
        (
            b"`include \"d.vh\"\nmodule m(input a, output y); assign y = a; endmodule".as_slice(),
            Status::ReadFault,
            b"READFAULT d.vh\n".as_slice(),
        ),
        (
            b"`include \"t.csv\"\nmodule m(input a, output y); assign y = a; endmodule".as_slice(),
            Status::Refused,
            b"REFUSED E05 Syntax\nAT t.csv 1\n".as_slice(),
        ),
    ] {
        let line = ["check", "--top", "m", "--table", "t.csv", "m.v"];
        assert!(rt; ends_with(alloc, &line, source, want, text)?);
    }
    Ok(())
}

#[test]
fn macros_and_more_files(rt: HostRuntime) -> Result<(), Fail> {
    let alloc = rt.alloc();
    let source =
        b"`ifdef A_1\nmodule m(input a, output y); assign y = a; endmodule\n`endif".as_slice();
    let source_is_empty = b"REFUSED E00 NotYet\nAT m.v\n".as_slice();
    let bad = b"BADWORDS\n".as_slice();
    let defined = [
        "check", "--define", "B,A_1", "--top", "m", "--table", "t.csv", "m.v",
    ];
    assert!(rt; ends_with(alloc, &defined, source, Status::Done, PROVED)?);
    let other = [
        "check", "--top", "m", "--table", "t.csv", "--define", "A", "m.v",
    ];
    assert!(rt; ends_with(alloc, &other, source, Status::Refused, source_is_empty)?);
    let part = [
        "check", "--top", "m", "--table", "t.csv", "--define", "A,", "m.v",
    ];
    assert!(rt; ends_with(alloc, &part, source, Status::BadWords, bad)?);
    let twice = [
        "check", "--top", "m", "--top", "m", "--table", "t.csv", "m.v",
    ];
    assert!(rt; ends_with(alloc, &twice, MODULE, Status::BadWords, bad)?);
    let two = ["check", "--top", "m", "--table", "t.csv", "m.v", "m.v"];
    assert!(rt; ends_with(alloc, &two, MODULE, Status::Refused, source_is_empty)?);
    let gone = ["check", "--top", "m", "--table", "t.csv", "m.v", "n.v"];
    let missing = b"READFAULT n.v\n".as_slice();
    assert!(rt; ends_with(alloc, &gone, MODULE, Status::ReadFault, missing)?);
    Ok(())
}

#[test]
fn syntax_of_sources(rt: HostRuntime) -> Result<(), Fail> {
    let alloc = rt.alloc();
    let line = ["check", "--top", "m", "--table", "t.csv", "m.v"];
    for (source, text) in [
        (
            b"module m(input a".as_slice(),
            b"REFUSED E05 Syntax\nAT m.v 1\n".as_slice(),
        ),
        (
            b"module m(input a, output y);\nassign y = a;\nendmodule\n\nmodule n(input b\nendmodule".as_slice(),
            b"REFUSED E05 Syntax\nAT m.v 5\n".as_slice(),
        ),
        (
            b"module m(input a, output y); assign y = a; endmodule\n;".as_slice(),
            b"REFUSED E05 Syntax\nAT m.v 2\n".as_slice(),
        ),
        (
            b"\nmodule m(input a, output y); assign y = a".as_slice(),
            b"REFUSED E05 Syntax\nAT m.v 2\n".as_slice(),
        ),
        (
            b"module m(input a;\nassign y = 1'bx; endmodule".as_slice(),
            b"REFUSED E04 LeftOut\nAT m.v 2\n".as_slice(),
        ),
    ] {
        assert!(rt; ends_with(alloc, &line, source, Status::Refused, text)?);
    }
    let include = b"module m(input a\n`include \"d.vh\"".as_slice();
    let missing = b"READFAULT d.vh\n".as_slice();
    assert!(rt; ends_with(alloc, &line, include, Status::ReadFault, missing)?);
    let table = b"REFUSED E05 Syntax\nAT m.v 1\n".as_slice();
    assert!(rt; ends(alloc, b"x", b"module m(input a", Status::Refused, table)?);
    let two = ["check", "--top", "m", "--table", "t.csv", "m.v", "t.csv"];
    let second = b"REFUSED E05 Syntax\nAT t.csv 1\n".as_slice();
    assert!(rt; ends_with(alloc, &two, MODULE, Status::Refused, second)?);
    Ok(())
}
