//! What `state` and `order` write, and how they end.
use crate::rows::{expect, positions_of};
use ilk_base::{MemShelf, MemSink, MemSource};
use interlock_cli::{Status, run};
use std::alloc::Global;
use std::process::Abort;
use std::test::Fail;
use test_stations::{AS_A_TOOL_WRITES, TWO_FEEDERS, words_of};

// On the one bay with an earthing switch and an infeed at its node: positions, and what is told of the
// node.
const STATES: &[(&str, &str)] = &[
    ("S/V1/Q1/QC9,off\nS/V1/Q1/E1,on\n", "live free S/V1/Q1/a\n"),
    (
        "S/V1/Q1/QC9,on\nS/V1/Q1/E1,off\n",
        "dead earthed S/V1/Q1/a\n",
    ),
    ("S/V1/Q1/QC9,bad\n", "unknown unknown S/V1/Q1/a\n"),
];

#[test]
fn states(rt: HostRuntime) -> Result<(), Fail> {
    let alloc = rt.alloc();
    let station = AS_A_TOOL_WRITES.as_bytes();
    for (positions, text) in STATES {
        let want = (Status::Done, text.as_bytes(), "");
        let words = "state a.ssd a.csv";
        expect(&rt, alloc, words, station, positions.as_bytes(), want)?;
    }
    Ok(())
}

// Runs `order` on the two feeders.
fn expect_order(
    rt: &impl Abort,
    alloc: Global,
    positions: &[u8],
    order: &str,
    want: (Status, &str, &str),
) -> Result<(), Fail> {
    let words = words_of(alloc, "order a.ssd a.csv a.txt")?;
    let mut shelf = MemShelf::new(alloc);
    shelf.put("a.ssd", TWO_FEEDERS.as_bytes())?;
    shelf.put("a.csv", positions)?;
    shelf.put("a.txt", order.as_bytes())?;
    let mut input = MemSource::new(alloc, b"", 1)?;
    let mut out = MemSink::new(alloc, 1000, 77)?;
    let mut err = MemSink::new(alloc, 100, 7)?;
    let status = run(alloc, &words, &mut shelf, &mut input, &mut out, &mut err);
    let (want_status, want_out, want_err) = want;
    assert!(rt; err.bytes() == want_err.as_bytes());
    assert!(rt; out.bytes() == want_out.as_bytes());
    assert!(rt; status == want_status);
    Ok(())
}

// A row: which switches are on, the order, and how it ends.
struct Row {
    on: &'static [u8; 10],
    order: &'static str,
    want: (Status, &'static str, &'static str),
}

// An order and back; a denied step; an idle step; no way back; the empty order; a line that is none; and
// a path of no switch.
const ORDERS: &[Row] = &[
    Row {
        on: b"0000000000",
        order: "close S/V1/Q1/QB1\nclose S/V1/Q1/QB9\nclose S/V1/Q1/E1\nclose S/V1/Q1/QA1\n",
        want: (
            Status::Done,
            "1 ok close S/V1/Q1/QB1\n2 ok close S/V1/Q1/QB9\n3 ok close S/V1/Q1/E1\n4 ok close S/V1/Q1/QA1\n\
                accepted 4\nback accepted\n",
            "",
        ),
    },
    Row {
        on: b"0000000000",
        order: "close S/V1/Q1/E1\nclose S/V1/Q1/QC9\n",
        want: (
            Status::Differs,
            "1 ok close S/V1/Q1/E1\n2 denied R1 close S/V1/Q1/QC9\n",
            "",
        ),
    },
    Row {
        on: b"0000000000",
        order: "close S/V1/Q1/E1\nclose S/V1/Q1/E1\n",
        want: (
            Status::Differs,
            "1 ok close S/V1/Q1/E1\n2 idle close S/V1/Q1/E1\n",
            "",
        ),
    },
    Row {
        on: b"0001100000",
        order: "open S/V1/Q1/E1",
        want: (
            Status::Done,
            "1 ok open S/V1/Q1/E1\naccepted 1\nback 1 denied R2 close S/V1/Q1/E1\n",
            "",
        ),
    },
    Row {
        on: b"0000000000",
        order: "",
        want: (Status::Done, "accepted 0\nback accepted\n", ""),
    },
    Row {
        on: b"0000000000",
        order: "\nopen \n",
        want: (
            Status::InputRefused,
            "",
            "interlock: input refused 10 line 2\n",
        ),
    },
    Row {
        on: b"0000000000",
        order: "open S/V1/Q1/QX\n",
        want: (
            Status::InputRefused,
            "",
            "interlock: input refused 2 line 1\n",
        ),
    },
];

#[test]
fn orders(rt: HostRuntime) -> Result<(), Fail> {
    let alloc = rt.alloc();
    for row in ORDERS {
        let positions = positions_of(alloc, row.on)?;
        expect_order(&rt, alloc, positions.bytes(), row.order, row.want)?;
    }
    // a word that is neither off nor on, before the order is read
    let unsure = "interlock: input refused 14 line 0\n";
    expect_order(&rt, alloc, b"", "up", (Status::InputRefused, "", unsure))
}
