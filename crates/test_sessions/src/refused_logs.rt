//! Logs that are refused, each with the line that it gives on `err`.
use crate::logs::replayed;
use ilk_base::Text;
use interlock_cli::Status;
use std::test::Fail;

// A number that is none, a position that is told late, a position that is told again, a path and a word of nothing, a
// record of another form, one of another kind, and bytes that are no text.
const REFUSED: &[(&[u8], &str)] = &[
    (b"deliver,0\n", "interlock: input refused 8 line 1\n"),
    (b"part,1,65\n", "interlock: input refused 8 line 1\n"),
    (
        b"sense,S/V1/Q1/QB1,off\nat,S/V1/Q1/QB1,off\n",
        "interlock: input refused 7 line 2\n",
    ),
    (
        b"at,S/V1/Q1/QB1,off\n\nat,S/V1/Q1/QB1,off\n",
        "interlock: input refused 4 line 2\n",
    ),
    (
        b"sense,S/V1/Q1/QX,on\n",
        "interlock: input refused 2 line 1\n",
    ),
    (b"tick,S/V1/W1\n", "interlock: input refused 2 line 1\n"),
    (
        b"sense,S/V1/Q1/QB1,up\n",
        "interlock: input refused 3 line 1\n",
    ),
    (
        b"begin,S/V1/Q1/QB1,off\n",
        "interlock: input refused 1 line 1\n",
    ),
    (
        b"begin,S/V1/Q1/QB1\xFF\n",
        "interlock: input refused 1 line 1\n",
    ),
    (b"trip,S/V1/Q1/QA1\n", "interlock: input refused 6 line 1\n"),
];

#[test]
fn refused_logs(rt: HostRuntime) -> Result<(), Fail> {
    for (log, line) in REFUSED {
        let out = replayed(&rt, rt.alloc(), log, Status::InputRefused, line)?;
        assert!(rt; out.bytes() == b"".as_slice());
    }
    Ok(())
}

// One record more than a log may have.
#[test]
fn long_log(rt: HostRuntime) -> Result<(), Fail> {
    let alloc = rt.alloc();
    let mut log = Text::new(alloc);
    for _ in 0..20_001 {
        log.push(b"tick,S/V1/Q1\n")?;
    }
    let line = "interlock: input refused 9 line 20001\n";
    let out = replayed(&rt, alloc, log.bytes(), Status::InputRefused, line)?;
    assert!(rt; out.bytes() == b"".as_slice());
    Ok(())
}
