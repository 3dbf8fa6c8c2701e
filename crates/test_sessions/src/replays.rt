//! What `replay` writes, and how it ends.
use ilk_base::{MemShelf, MemSink, MemSource};
use interlock_cli::{Status, run};
use std::alloc::Global;
use std::process::Abort;
use std::test::Fail;
use test_stations::{AS_A_TOOL_WRITES, words_of};

// Runs `replay` on the one bay with an earthing switch and an infeed at its node.
fn expect_replay(
    rt: &impl Abort,
    alloc: Global,
    log: &str,
    want: (Status, &str, &str),
) -> Result<(), Fail> {
    let words = words_of(alloc, "replay a.ssd a.csv")?;
    let mut shelf = MemShelf::new(alloc);
    shelf.put("a.ssd", AS_A_TOOL_WRITES.as_bytes())?;
    shelf.put("a.csv", log.as_bytes())?;
    let mut input = MemSource::new(alloc, b"", 1)?;
    let mut out = MemSink::new(alloc, 1000, 77)?;
    let mut err = MemSink::new(alloc, 100, 7)?;
    let status = run(alloc, &words, &mut shelf, &mut input, &mut out, &mut err);
    let (want_status, want_out, want_err) = want;
    assert!(rt; err.bytes() == want_err.as_bytes());
    assert!(rt; out.bytes() == want_out.as_bytes());
    assert!(rt; status == want_status);
    Ok(())
}

// One whole operation of a bay that is alone; a broken premise; a log that tells no start; and a text that is
// no log.
const REPLAYS: &[(&str, (Status, &str, &str))] = &[
    (
        "at,S/V1/Q1/QC9,off\nat,S/V1/Q1/E1,off\nsense,S/V1/Q1/QC9,off\nsense,S/V1/Q1/E1,off\n\
            command,S/V1/Q1/QC9,close\nbegin,S/V1/Q1/QC9\nend,S/V1/Q1/QC9\nsense,S/V1/Q1/QC9,on\n",
        (
            Status::Done,
            "bay 0 S/V1/Q1\n5 0 granted 1 close S/V1/Q1/QC9\n8 0 finished 1\ndone 8\n",
            "",
        ),
    ),
    (
        "at,S/V1/Q1/QC9,off\nat,S/V1/Q1/E1,off\nbegin,S/V1/Q1/QC9\n",
        (
            Status::Premise,
            "bay 0 S/V1/Q1\n",
            "interlock: premise 3 line 3\n",
        ),
    ),
    (
        "",
        (
            Status::Premise,
            "bay 0 S/V1/Q1\n",
            "interlock: premise 1 line 1\n",
        ),
    ),
    (
        "tack\n",
        (
            Status::InputRefused,
            "",
            "interlock: input refused 6 line 1\n",
        ),
    ),
];

#[test]
fn replays(rt: HostRuntime) -> Result<(), Fail> {
    let alloc = rt.alloc();
    for (log, want) in REPLAYS {
        expect_replay(&rt, alloc, log, *want)?;
    }
    Ok(())
}
