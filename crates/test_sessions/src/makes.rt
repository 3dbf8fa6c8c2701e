//! What `make` and `work` write.
use ilk_base::{MemShelf, MemSink, MemSource};
use interlock_cli::{Status, run};
use std::alloc::Global;
use std::process::Abort;
use std::test::Fail;
use test_stations::words_of;

// Runs words that name no file.
fn expect_made(
    rt: &impl Abort,
    alloc: Global,
    words: &str,
    want: (Status, &str, &str),
) -> Result<(), Fail> {
    let words = words_of(alloc, words)?;
    let mut shelf = MemShelf::new(alloc);
    let mut input = MemSource::new(alloc, b"", 1)?;
    let mut out = MemSink::new(alloc, 1000, 77)?;
    let mut err = MemSink::new(alloc, 100, 7)?;
    let status = run(alloc, &words, &mut shelf, &mut input, &mut out, &mut err);
    let (want_status, want_out, want_err) = want;
    assert!(rt; err.bytes() == want_err.as_bytes());
    assert!(rt; out.bytes() == want_out.as_bytes());
    assert!(rt; status == want_status);
    Ok(())
}

const POSITIONS: &str = "S/V1/K0/QB1,on
S/V1/K0/QA1,on
S/V1/K0/QB2,on
S/V1/Q1/QB1,on
S/V1/Q1/QB2,off
S/V1/Q1/QA1,on
S/V1/Q1/QB9,on
S/V1/Q1/QC9,off
S/V1/Q1/E1,on
S/V1/Q2/QB1,off
S/V1/Q2/QB2,on
S/V1/Q2/QA1,on
S/V1/Q2/QB9,on
S/V1/Q2/QC9,off
S/V1/Q2/E1,on
";

const USAGE: (Status, &str, &str) = (Status::Usage, "", "interlock: usage\n");

// The positions of two feeders; too many, a leading zero, another text.
const MADE: &[(&str, (Status, &str, &str))] = &[
    ("make 2 positions", (Status::Done, POSITIONS, "")),
    ("make 61 positions", USAGE),
    ("make 02 positions", USAGE),
    ("make 2 position", USAGE),
];

const WORK_TWO: &str = "station bays 3 switches 15 nodes 10
full released 16 denied 14
blind released 7 denied 23
log lines 40 granted 1 denied 0 finished 1
";

const WORK_FORTY: &str = "station bays 41 switches 243 nodes 124
full released 282 denied 204
blind released 121 denied 365
log lines 610 granted 1 denied 0 finished 1
";

// Two feeders; too few, too many, a leading zero, a word too many, none.
const WORKED: &[(&str, (Status, &str, &str))] = &[
    ("work 2", (Status::Done, WORK_TWO, "")),
    ("work 1", USAGE),
    ("work 61", USAGE),
    ("work 02", USAGE),
    ("work 2 2", USAGE),
    ("work", USAGE),
];

#[test]
fn made(rt: HostRuntime) -> Result<(), Fail> {
    let alloc = rt.alloc();
    for (words, want) in MADE {
        expect_made(&rt, alloc, words, *want)?;
    }
    Ok(())
}

#[test]
fn worked(rt: HostRuntime) -> Result<(), Fail> {
    let alloc = rt.alloc();
    for (words, want) in WORKED {
        expect_made(&rt, alloc, words, *want)?;
    }
    Ok(())
}

#[test]
fn forty_feeders(rt: HostRuntime) -> Result<(), Fail> {
    expect_made(&rt, rt.alloc(), "work 40", (Status::Done, WORK_FORTY, ""))
}
