//! What `audit` writes, and how it ends.
use ilk_base::{MemShelf, MemSink, MemSource};
use interlock_cli::{Status, run};
use std::alloc::Global;
use std::process::Abort;
use std::test::Fail;
use test_stations::{AS_A_TOOL_WRITES, words_of};

// Runs `audit` on the one bay with an earthing switch and an infeed at its node.
fn expect_audit(
    rt: &impl Abort,
    alloc: Global,
    equations: &str,
    want: (Status, &str, &str),
) -> Result<(), Fail> {
    let words = words_of(alloc, "audit a.ssd a.txt")?;
    let mut shelf = MemShelf::new(alloc);
    shelf.put("a.ssd", AS_A_TOOL_WRITES.as_bytes())?;
    shelf.put("a.txt", equations.as_bytes())?;
    let mut input = MemSource::new(alloc, b"", 1)?;
    let mut out = MemSink::new(alloc, 1000, 77)?;
    let mut err = MemSink::new(alloc, 100, 7)?;
    let status = run(alloc, &words, &mut shelf, &mut input, &mut out, &mut err);
    let (want_status, want_out, want_err) = want;
    assert!(rt; err.bytes() == want_err.as_bytes());
    assert!(rt; out.bytes() == want_out.as_bytes());
    assert!(rt; status == want_status);
    Ok(())
}

// A block that says what the rules say; one that releases more, with the vector; one that denies more; and
// texts that are no blocks: one ends in a block, and one has two blocks of one operation.
const AUDITS: &[(&str, (Status, &str, &str))] = &[
    (
        "close S/V1/Q1/QC9\nwhen off S/V1/Q1/E1\nend\n",
        (Status::Done, "same close S/V1/Q1/QC9\n", ""),
    ),
    (
        "close S/V1/Q1/E1\nend\n",
        (
            Status::Differs,
            "loose R2 close S/V1/Q1/E1\nwith S/V1/Q1/QC9\n",
            "",
        ),
    ),
    (
        "open S/V1/Q1/E1\nnever\nend\n",
        (Status::Differs, "strict open S/V1/Q1/E1\n", ""),
    ),
    (
        "open S/V1/Q1/E1\nnever\n",
        (
            Status::InputRefused,
            "",
            "interlock: input refused 10 line 3\n",
        ),
    ),
    (
        "open S/V1/Q1/E1\nnever\nend\nopen S/V1/Q1/E1\nnever\nend\n",
        (
            Status::InputRefused,
            "",
            "interlock: input refused 4 line 4\n",
        ),
    ),
];

#[test]
fn audits(rt: HostRuntime) -> Result<(), Fail> {
    let alloc = rt.alloc();
    for (equations, want) in AUDITS {
        expect_audit(&rt, alloc, equations, *want)?;
    }
    Ok(())
}
