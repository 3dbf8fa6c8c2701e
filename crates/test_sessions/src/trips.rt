//! What `trips` writes of logs of the two feeders, and how it ends.
use crate::logs::{BAYS, log_of, ran};
use ilk_base::Text;
use interlock_cli::Status;
use std::alloc::Global;
use std::process::Abort;
use std::test::Fail;

const WORDS: &str = "trips a.ssd a.csv";

// A row: how many lines of the one operation stand first, what follows them, how the call ends, with its line on
// `err`, and what is written after the lines of the bays.
struct Row {
    first: usize,
    rest: &'static str,
    status: Status,
    line: &'static str,
    report: &'static [&'static str],
}

const ROWS: &[Row] = &[
    // A trip during an operation: the other feeder is switched off, and the operation goes on.
    Row {
        first: 23,
        rest: "trip,S/V1/Q2/QA1\nbegin,S/V1/Q1/QB1\nend,S/V1/Q1/QB1\nsense,S/V1/Q1/QB1,on\ndeliver,3\n",
        status: Status::Done,
        line: "",
        report: &[
            "21 1 collecting 1\n21 1 send 1 reserve 2 1\n22 2 send 2 answer 1 1\n",
            "23 1 granted 1 close S/V1/Q1/QB1\n27 1 finished 1\n27 1 send 3 over 2 1\ndone 28\n",
        ],
    },
    // A word against a trip: what has tripped is read as on.
    Row {
        first: 10,
        rest: "trip,S/V1/Q2/QA1\nsense,S/V1/Q2/QA1,on\n",
        status: Status::Premise,
        line: "interlock: premise 2 line 12\n",
        report: &[],
    },
    // Where no breaker trips, it is the report of the log.
    Row {
        first: 27,
        rest: "",
        status: Status::Done,
        line: "",
        report: &[
            "21 1 collecting 1\n21 1 send 1 reserve 2 1\n22 2 send 2 answer 1 1\n",
            "23 1 granted 1 close S/V1/Q1/QB1\n26 1 finished 1\n26 1 send 3 over 2 1\ndone 27\n",
        ],
    },
];

fn expect_row(rt: &impl Abort, alloc: Global, row: &Row) -> Result<(), Fail> {
    let log = log_of(alloc, row.first, row.rest)?;
    let mut want = Text::new(alloc);
    want.push(BAYS.as_bytes())?;
    for part in row.report {
        want.push(part.as_bytes())?;
    }
    let out = ran(rt, alloc, WORDS, log.bytes(), row.status, row.line)?;
    assert!(rt; out.bytes() == want.bytes());
    Ok(())
}

#[test]
fn trips(rt: HostRuntime) -> Result<(), Fail> {
    for row in ROWS {
        expect_row(&rt, rt.alloc(), row)?;
    }
    Ok(())
}

// A trip of no breaker.
#[test]
fn no_breaker(rt: HostRuntime) -> Result<(), Fail> {
    let alloc = rt.alloc();
    let log = log_of(alloc, 10, "trip,S/V1/Q1/QB1\n")?;
    let line = "interlock: input refused 2 line 11\n";
    let out = ran(&rt, alloc, WORDS, log.bytes(), Status::InputRefused, line)?;
    assert!(rt; out.bytes() == b"".as_slice());
    Ok(())
}
