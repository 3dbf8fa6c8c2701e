//! What `replay` writes of logs of the two feeders, and how it ends.
use ilk_base::{MemShelf, MemSink, MemSource, Memory, Text};
use interlock_cli::{Status, run};
use std::alloc::Global;
use std::process::Abort;
use std::test::Fail;
use test_stations::{TWO_FEEDERS, words_of};

// The log of one whole operation: where the switches stand, the words that are read of them, and the closing of the
// first feeder's busbar disconnector.
pub(crate) const ONE_OPERATION: &[&str] = &[
    "at,S/V1/Q1/QB1,off\n",
    "at,S/V1/Q1/QA1,off\n",
    "at,S/V1/Q1/QB9,on\n",
    "at,S/V1/Q1/QC9,off\n",
    "at,S/V1/Q1/E1,off\n",
    "at,S/V1/Q2/QB1,on\n",
    "at,S/V1/Q2/QA1,on\n",
    "at,S/V1/Q2/QB9,on\n",
    "at,S/V1/Q2/QC9,off\n",
    "at,S/V1/Q2/E1,on\n",
    "sense,S/V1/Q1/QB1,off\n",
    "sense,S/V1/Q1/QA1,off\n",
    "sense,S/V1/Q1/QB9,on\n",
    "sense,S/V1/Q1/QC9,off\n",
    "sense,S/V1/Q1/E1,off\n",
    "sense,S/V1/Q2/QB1,on\n",
    "sense,S/V1/Q2/QA1,on\n",
    "sense,S/V1/Q2/QB9,on\n",
    "sense,S/V1/Q2/QC9,off\n",
    "sense,S/V1/Q2/E1,on\n",
    "command,S/V1/Q1/QB1,close\n",
    "deliver,1\n",
    "deliver,2\n",
    "begin,S/V1/Q1/QB1\n",
    "end,S/V1/Q1/QB1\n",
    "sense,S/V1/Q1/QB1,on\n",
    "deliver,3\n",
];

// The lines of the bays.
pub(crate) const BAYS: &str = "bay 1 S/V1/Q1\nbay 2 S/V1/Q2\n";

// A row: how many lines of the one operation stand first, what follows them, how the call ends, with its line on
// `err`, and what is written after the lines of the bays.
struct Row {
    first: usize,
    rest: &'static str,
    status: Status,
    line: &'static str,
    report: &'static str,
}

const ROWS: &[Row] = &[
    // One whole operation.
    Row {
        first: 27,
        rest: "",
        status: Status::Done,
        line: "",
        report: "21 1 collecting 1\n21 1 send 1 reserve 2 1\n22 2 send 2 answer 1 1\n23 1 granted 1 close S/V1/Q1/QB1\n\
            26 1 finished 1\n26 1 send 3 over 2 1\ndone 27\n",
    },
    // Two rounds at once: neither bay answers the other.
    Row {
        first: 21,
        rest: "command,S/V1/Q2/QB1,open\ndeliver,1\ndeliver,2\ndeliver,3\ndeliver,4\ndeliver,5\n",
        status: Status::Done,
        line: "",
        report: "21 1 collecting 1\n21 1 send 1 reserve 2 1\n22 2 collecting 1\n22 2 send 2 reserve 1 1\n\
            23 2 send 3 busy 1 1\n24 1 send 4 busy 2 1\n25 1 busy 1 from 2 holder 2 round 1\n25 1 send 5 over 2 1\n\
            26 2 busy 1 from 1 holder 1 round 1\n26 2 send 6 over 1 1\ndone 27\n",
    },
    // Restarts, repeats and a query.
    Row {
        first: 23,
        rest: "restart,S/V1/Q1\ncommand,S/V1/Q1/QA1,close\nrestart,S/V1/Q2\ncommand,S/V1/Q2/QA1,open\n\
            begin,S/V1/Q1/QB1\nend,S/V1/Q1/QB1\nsense,S/V1/Q1/QB1,on\ndeliver,3\ndeliver,1\ndeliver,2\ntick,S/V1/Q2\n\
            deliver,5\ndeliver,6\ncommand,S/V1/Q2/QA1,open\n",
        status: Status::Done,
        line: "",
        report: "21 1 collecting 1\n21 1 send 1 reserve 2 1\n22 2 send 2 answer 1 1\n23 1 granted 1 close S/V1/Q1/QB1\n\
            25 1 underway 1\n27 2 held 1 round 1\n30 1 finished 1\n30 1 send 3 over 2 1\n32 2 send 4 answer 1 1\n\
            34 2 send 5 query 1 1\n35 1 send 6 over 2 1\n37 2 collecting 1\n37 2 send 7 reserve 1 1\ndone 37\n",
    },
    // Repeats after the end: the second feeder is reserved again, and answers.
    Row {
        first: 27,
        rest: "deliver,1\ndeliver,2\ndeliver,3\n",
        status: Status::Done,
        line: "",
        report: "21 1 collecting 1\n21 1 send 1 reserve 2 1\n22 2 send 2 answer 1 1\n23 1 granted 1 close S/V1/Q1/QB1\n\
            26 1 finished 1\n26 1 send 3 over 2 1\n28 2 send 4 answer 1 1\ndone 30\n",
    },
    // A drive stops between its ends: the operation has ended, and the switch is opened in a round of its own.
    Row {
        first: 24,
        rest: "cut,S/V1/Q1/QB1\ncommand,S/V1/Q1/QB1,open\ndeliver,3\ndeliver,4\ndeliver,5\nbegin,S/V1/Q1/QB1\n\
            end,S/V1/Q1/QB1\nsense,S/V1/Q1/QB1,off\ndeliver,6\n",
        status: Status::Done,
        line: "",
        report: "21 1 collecting 1\n21 1 send 1 reserve 2 1\n22 2 send 2 answer 1 1\n23 1 granted 1 close S/V1/Q1/QB1\n\
            25 1 stopped 1\n25 1 send 3 over 2 1\n26 1 collecting 2\n26 1 send 4 reserve 2 2\n28 2 send 5 answer 1 2\n\
            29 1 granted 2 open S/V1/Q1/QB1\n32 1 finished 2\n32 1 send 6 over 2 2\ndone 33\n",
    },
    // Where the switches stand, and nothing more.
    Row {
        first: 10,
        rest: "",
        status: Status::Done,
        line: "",
        report: "done 10\n",
    },
    // Premises that are broken: no start, a word that is not true, a start and an end of a drive, a withdrawal
    // while it runs, a message that was not sent, and a stop of a drive that does not run, or no longer.
    Row {
        first: 0,
        rest: "",
        status: Status::Premise,
        line: "interlock: premise 1 line 1\n",
        report: "",
    },
    Row {
        first: 10,
        rest: "sense,S/V1/Q1/QB1,on\n",
        status: Status::Premise,
        line: "interlock: premise 2 line 11\n",
        report: "",
    },
    Row {
        first: 10,
        rest: "begin,S/V1/Q1/QB1\n",
        status: Status::Premise,
        line: "interlock: premise 3 line 11\n",
        report: "",
    },
    Row {
        first: 10,
        rest: "end,S/V1/Q1/QB1\n",
        status: Status::Premise,
        line: "interlock: premise 4 line 11\n",
        report: "",
    },
    Row {
        first: 24,
        rest: "withdraw,S/V1/Q1\n",
        status: Status::Premise,
        line: "interlock: premise 5 line 25\n",
        report: "21 1 collecting 1\n21 1 send 1 reserve 2 1\n22 2 send 2 answer 1 1\n\
            23 1 granted 1 close S/V1/Q1/QB1\n",
    },
    Row {
        first: 10,
        rest: "deliver,1\n",
        status: Status::Premise,
        line: "interlock: premise 6 line 11\n",
        report: "",
    },
    Row {
        first: 10,
        rest: "cut,S/V1/Q1/QB1\n",
        status: Status::Premise,
        line: "interlock: premise 7 line 11\n",
        report: "",
    },
    Row {
        first: 24,
        rest: "cut,S/V1/Q1/QB1\nsense,S/V1/Q1/QB1,on\n",
        status: Status::Premise,
        line: "interlock: premise 2 line 26\n",
        report: "21 1 collecting 1\n21 1 send 1 reserve 2 1\n22 2 send 2 answer 1 1\n23 1 granted 1 close S/V1/Q1/QB1\n\
            25 1 stopped 1\n25 1 send 3 over 2 1\n",
    },
    Row {
        first: 24,
        rest: "cut,S/V1/Q1/QB1\nend,S/V1/Q1/QB1\n",
        status: Status::Premise,
        line: "interlock: premise 4 line 26\n",
        report: "21 1 collecting 1\n21 1 send 1 reserve 2 1\n22 2 send 2 answer 1 1\n23 1 granted 1 close S/V1/Q1/QB1\n\
            25 1 stopped 1\n25 1 send 3 over 2 1\n",
    },
];

// The first lines of the one operation, and what follows them.
pub(crate) fn log_of(alloc: Global, first: usize, rest: &str) -> Result<Text, Memory> {
    let mut log = Text::new(alloc);
    for (i, line) in ONE_OPERATION.iter().enumerate() {
        if i < first {
            log.push(line.as_bytes())?;
        }
    }
    log.push(rest.as_bytes())?;
    Ok(log)
}

// Runs the words on the two feeders; the status, and what went to `err`, are as wanted. Gives what went to `out`.
pub(crate) fn ran(
    rt: &impl Abort,
    alloc: Global,
    words: &str,
    log: &[u8],
    status: Status,
    line: &str,
) -> Result<MemSink, Fail> {
    let words = words_of(alloc, words)?;
    let mut shelf = MemShelf::new(alloc);
    shelf.put("a.ssd", TWO_FEEDERS.as_bytes())?;
    shelf.put("a.csv", log)?;
    let mut input = MemSource::new(alloc, b"", 1)?;
    let mut out = MemSink::new(alloc, 4000, 77)?;
    let mut err = MemSink::new(alloc, 100, 7)?;
    let ended = run(alloc, &words, &mut shelf, &mut input, &mut out, &mut err);
    assert!(rt; err.bytes() == line.as_bytes());
    assert!(rt; ended == status);
    Ok(out)
}

// Runs `replay` so.
pub(crate) fn replayed(
    rt: &impl Abort,
    alloc: Global,
    log: &[u8],
    status: Status,
    line: &str,
) -> Result<MemSink, Fail> {
    ran(rt, alloc, "replay a.ssd a.csv", log, status, line)
}

fn expect_row(rt: &impl Abort, alloc: Global, row: &Row) -> Result<(), Fail> {
    let log = log_of(alloc, row.first, row.rest)?;
    let mut want = Text::new(alloc);
    want.push(BAYS.as_bytes())?;
    want.push(row.report.as_bytes())?;
    let out = replayed(rt, alloc, log.bytes(), row.status, row.line)?;
    assert!(rt; out.bytes() == want.bytes());
    Ok(())
}

#[test]
fn reports(rt: HostRuntime) -> Result<(), Fail> {
    for row in ROWS {
        expect_row(&rt, rt.alloc(), row)?;
    }
    Ok(())
}

// Reports with a denial, in two pieces: the reading that it names may have the breaker of the second feeder closed,
// which a line between the pieces says, or open.
const BY_A_TICK: [&str; 2] = [
    "bay 1 S/V1/Q1\nbay 2 S/V1/Q2\n21 1 collecting 1\n21 1 send 1 reserve 2 1\n22 2 send 2 answer 1 1\n\
        23 1 denied 1 R2 close S/V1/Q1/QB1\n23 1 with S/V1/Q1/QB9\n23 1 with S/V1/Q2/QB1\n",
    "23 1 with S/V1/Q2/QB9\n23 1 with S/V1/Q2/QC9\n23 1 with S/V1/Q2/E1\n23 1 send 3 over 2 1\ndone 24\n",
];

const OF_ROUND_2: [&str; 2] = [
    "bay 1 S/V1/Q1\nbay 2 S/V1/Q2\n21 1 collecting 1\n21 1 send 1 reserve 2 1\n22 2 send 2 answer 1 1\n\
        23 1 granted 1 close S/V1/Q1/QB1\n26 1 finished 1\n26 1 send 3 over 2 1\n28 1 collecting 2\n\
        28 1 send 4 reserve 2 2\n30 1 denied 2 R2 close S/V1/Q1/QA1\n30 1 with S/V1/Q1/QB1\n30 1 with S/V1/Q1/QB9\n\
        30 1 with S/V1/Q2/QB1\n",
    "30 1 with S/V1/Q2/QB9\n30 1 with S/V1/Q2/QC9\n30 1 with S/V1/Q2/E1\n30 1 send 5 over 2 2\ndone 30\n",
];

fn expect_denial(
    rt: &impl Abort,
    alloc: Global,
    log: &[u8],
    pieces: [&str; 2],
    between: &str,
) -> Result<(), Fail> {
    let out = replayed(rt, alloc, log, Status::Done, "")?;
    let [first, last] = pieces;
    let mut open = Text::new(alloc);
    let mut closed = Text::new(alloc);
    open.push(first.as_bytes())?;
    closed.push(first.as_bytes())?;
    closed.push(between.as_bytes())?;
    open.push(last.as_bytes())?;
    closed.push(last.as_bytes())?;
    assert!(rt; out.bytes() == open.bytes() || out.bytes() == closed.bytes());
    Ok(())
}

// A tick decides while the second feeder is not heard: in some reading it earths the busbar. An answer of an earlier
// round does not count in a later one.
#[test]
fn denials(rt: HostRuntime) -> Result<(), Fail> {
    let alloc = rt.alloc();
    let log = log_of(alloc, 22, "tick,S/V1/Q1\ndeliver,3\n")?;
    let breaker = "23 1 with S/V1/Q2/QA1\n";
    expect_denial(&rt, alloc, log.bytes(), BY_A_TICK, breaker)?;
    let rest = "command,S/V1/Q1/QA1,close\ndeliver,2\ntick,S/V1/Q1\n";
    let log = log_of(alloc, 27, rest)?;
    let breaker = "30 1 with S/V1/Q2/QA1\n";
    expect_denial(&rt, alloc, log.bytes(), OF_ROUND_2, breaker)
}

// The disconnector stands closed: the tick grants its opening, whatever the second feeder does.
#[test]
fn granted_by_a_tick(rt: HostRuntime) -> Result<(), Fail> {
    let alloc = rt.alloc();
    let mut log = Text::new(alloc);
    log.push(b"at,S/V1/Q1/QB1,on\n")?;
    for line in &ONE_OPERATION[1..10] {
        log.push(line.as_bytes())?;
    }
    log.push(b"sense,S/V1/Q1/QB1,on\n")?;
    for line in &ONE_OPERATION[11..20] {
        log.push(line.as_bytes())?;
    }
    log.push(b"command,S/V1/Q1/QB1,open\ndeliver,1\ntick,S/V1/Q1\n")?;
    let out = replayed(&rt, alloc, log.bytes(), Status::Done, "")?;
    let want =
        b"bay 1 S/V1/Q1\nbay 2 S/V1/Q2\n21 1 collecting 1\n21 1 send 1 reserve 2 1\n22 2 send 2 answer 1 1\n\
            23 1 granted 1 open S/V1/Q1/QB1\ndone 23\n";
    assert!(rt; out.bytes() == want.as_slice());
    Ok(())
}
