//! The log of one whole operation with one line more: what is lost, and what is not.
use crate::logs::{BAYS, ONE_OPERATION, replayed};
use ilk_base::{Memory, Text};
use interlock_cli::Status;
use std::alloc::Global;
use std::process::Abort;
use std::test::Fail;

// What the report of the one operation shows: the line of the log, its number where the line more stands before it,
// and what is shown.
const SHOWN: &[(usize, &str, &str, &str)] = &[
    (21, "21", "22", " 1 collecting 1\n"),
    (21, "21", "22", " 1 send 1 reserve 2 1\n"),
    (22, "22", "23", " 2 send 2 answer 1 1\n"),
    (23, "23", "24", " 1 granted 1 close S/V1/Q1/QB1\n"),
    (26, "26", "27", " 1 finished 1\n"),
    (26, "26", "27", " 1 send 3 over 2 1\n"),
];

// The log with a line more after so many.
fn with_line(alloc: Global, after: usize, more: &str) -> Result<Text, Memory> {
    let mut log = Text::new(alloc);
    for (i, line) in ONE_OPERATION.iter().enumerate() {
        log.push(line.as_bytes())?;
        if i + 1 == after {
            log.push(more.as_bytes())?;
        }
    }
    Ok(log)
}

// The report of the one operation with a line more that shows nothing, after so many.
fn report_with(alloc: Global, after: usize) -> Result<Text, Memory> {
    let mut report = Text::new(alloc);
    report.push(BAYS.as_bytes())?;
    for (line, before, behind, text) in SHOWN {
        report.push(if *line > after { *behind } else { *before }.as_bytes())?;
        report.push(text.as_bytes())?;
    }
    report.push(b"done 28\n")?;
    Ok(report)
}

// A restart of the bay after its grant; a restart of the other bay after its answer; a frame that comes cut, of
// which its first bytes are handed over.
const LOST_ON_NOTHING: &[(&str, usize)] = &[
    ("restart,S/V1/Q1\n", 23),
    ("restart,S/V1/Q2\n", 22),
    ("part,1,8\n", 21),
];

fn expect_the_same(rt: &impl Abort, alloc: Global, after: usize, more: &str) -> Result<(), Fail> {
    let log = with_line(alloc, after, more)?;
    let out = replayed(rt, alloc, log.bytes(), Status::Done, "")?;
    let want = report_with(alloc, after)?;
    assert!(rt; out.bytes() == want.bytes());
    Ok(())
}

#[test]
fn lines_that_change_nothing(rt: HostRuntime) -> Result<(), Fail> {
    for (more, first) in LOST_ON_NOTHING {
        for after in *first..28 {
            expect_the_same(&rt, rt.alloc(), after, more)?;
        }
    }
    Ok(())
}

// Where a line more stands, how it begins what is written after the lines of the bays, and the premise that breaks.
struct Broken {
    after: usize,
    more: &'static str,
    report: &'static str,
    line: &'static str,
}

// A restart of the bay before its grant forgets the round, so the drive may not begin; a restart of the other
// bay before its answer leaves it without words, so the answer helps nothing; and a frame comes cut that was
// not sent yet.
const BROKEN: &[Broken] = &[
    Broken {
        after: 21,
        more: "restart,S/V1/Q1\n",
        report: "21 1 collecting 1\n21 1 send 1 reserve 2 1\n23 2 send 2 answer 1 1\n",
        line: "interlock: premise 3 line 25\n",
    },
    Broken {
        after: 22,
        more: "restart,S/V1/Q1\n",
        report: "21 1 collecting 1\n21 1 send 1 reserve 2 1\n22 2 send 2 answer 1 1\n",
        line: "interlock: premise 3 line 25\n",
    },
    Broken {
        after: 21,
        more: "restart,S/V1/Q2\n",
        report: "21 1 collecting 1\n21 1 send 1 reserve 2 1\n23 2 send 2 answer 1 1\n\
            24 1 denied 1 R2 close S/V1/Q1/QB1\n",
        line: "interlock: premise 3 line 25\n",
    },
    Broken {
        after: 20,
        more: "part,1,64\n",
        report: "",
        line: "interlock: premise 6 line 21\n",
    },
];

fn expect_broken(rt: &impl Abort, alloc: Global, row: &Broken) -> Result<(), Fail> {
    let log = with_line(alloc, row.after, row.more)?;
    let out = replayed(rt, alloc, log.bytes(), Status::Premise, row.line)?;
    let mut want = Text::new(alloc);
    want.push(BAYS.as_bytes())?;
    want.push(row.report.as_bytes())?;
    assert!(rt; out.bytes().starts_with(want.bytes()));
    Ok(())
}

#[test]
fn lines_that_break_a_premise(rt: HostRuntime) -> Result<(), Fail> {
    for row in BROKEN {
        expect_broken(&rt, rt.alloc(), row)?;
    }
    Ok(())
}
