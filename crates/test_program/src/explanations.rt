//! What `explain` writes on the drawings, and how it ends. The chains are read off the drawings by hand: of
// two feeders each has its nodes n1, n2 and n3 in a row from the busbar B, with the disconnector QB1 to the
// busbar, the breaker QA1 to n2, the line disconnector QB9 to n3, and at n3 the earthing switch QC9 and the
// infeed E1. On the double busbar QB1 leads to the first busbar and QB2 to the second, and the coupler K0
// leads over QB1, k1, QA1, k2 and QB2 from one to the other.
use crate::drawings::DOUBLE_BUSBAR;
use crate::rows::{coupled, expect, positions_of};
use interlock_cli::Status;
use std::alloc::Global;
use std::process::Abort;
use std::test::Fail;
use test_stations::TWO_FEEDERS;

// A row on the two feeders: which switches are on (`1`) and which lost (`?`), the words, and what is written.
struct Row {
    on: &'static [u8; 10],
    words: &'static str,
    text: &'static str,
}

// The breaker between an energised busbar and an earthed feeder, both directions; an earthing switch
// behind an open breaker; the disconnector of one of two feeders that are through; the same where only
// the second side is live; an infeed at an earthed node.
const ROWS: &[Row] = &[
    Row {
        on: b"1011011101",
        words: "explain a.ssd a.csv close S/V1/Q1/QA1",
        text: "denied R2 close S/V1/Q1/QA1
live
node S/V1/Q1/n1
node S/V1/W1/B
node S/V1/Q2/n1
node S/V1/Q2/n2
node S/V1/Q2/n3
by S/V1/Q2/E1
earthed
node S/V1/Q1/n1
node S/V1/Q1/n2
node S/V1/Q1/n3
by S/V1/Q1/QC9
",
    },
    Row {
        on: b"1011011101",
        words: "explain a.ssd a.csv open S/V1/Q1/QA1",
        text: "released open S/V1/Q1/QA1\n",
    },
    Row {
        on: b"1010011101",
        words: "explain a.ssd a.csv close S/V1/Q1/QC9",
        text: "denied R1 close S/V1/Q1/QC9
live
node S/V1/Q1/n3
node S/V1/Q1/n2
node S/V1/Q1/n1
node S/V1/W1/B
node S/V1/Q2/n1
node S/V1/Q2/n2
node S/V1/Q2/n3
by S/V1/Q2/E1
",
    },
    Row {
        on: b"1110111101",
        words: "explain a.ssd a.csv open S/V1/Q1/QB1",
        text: "denied R3 open S/V1/Q1/QB1
live
node S/V1/W1/B
node S/V1/Q2/n1
node S/V1/Q2/n2
node S/V1/Q2/n3
by S/V1/Q2/E1
tap
node S/V1/W1/B
node S/V1/Q2/n1
node S/V1/Q2/n2
node S/V1/Q2/n3
tap
node S/V1/Q1/n1
node S/V1/Q1/n2
node S/V1/Q1/n3
bonded
node S/V1/W1/B
node S/V1/Q2/n1
node S/V1/Q2/n2
node S/V1/Q2/n3
",
    },
    Row {
        on: b"1110111100",
        words: "explain a.ssd a.csv open S/V1/Q1/QB1",
        text: "denied R3 open S/V1/Q1/QB1
live
node S/V1/Q1/n1
node S/V1/Q1/n2
node S/V1/Q1/n3
by S/V1/Q1/E1
tap
node S/V1/W1/B
node S/V1/Q2/n1
node S/V1/Q2/n2
node S/V1/Q2/n3
tap
node S/V1/Q1/n1
node S/V1/Q1/n2
node S/V1/Q1/n3
bonded
node S/V1/W1/B
node S/V1/Q2/n1
node S/V1/Q2/n2
node S/V1/Q2/n3
",
    },
    Row {
        on: b"0001000000",
        words: "explain a.ssd a.csv close S/V1/Q1/E1",
        text: "denied R2 close S/V1/Q1/E1
live
node S/V1/Q1/n3
by S/V1/Q1/E1
earthed
node S/V1/Q1/n3
by S/V1/Q1/QC9
",
    },
];

// What is written of all operations that are denied: none with all off; a disconnector that is open behind a feeder
// that is through, both directions, and the earthing switch of the energised line behind it; the earthing switch of a
// line that may be energised.
const ALL_DENIED: &[Row] = &[
    Row {
        on: b"0000000000",
        words: "explain a.ssd a.csv",
        text: "",
    },
    Row {
        on: b"1110011001",
        words: "explain a.ssd a.csv",
        text: "denied R3 open S/V1/Q2/QB9
live
node S/V1/Q2/n3
by S/V1/Q2/E1
tap
node S/V1/Q2/n2
node S/V1/Q2/n1
node S/V1/W1/B
node S/V1/Q1/n1
node S/V1/Q1/n2
node S/V1/Q1/n3
tap
node S/V1/Q2/n3
bonded
node S/V1/W1/B
node S/V1/Q1/n1
node S/V1/Q1/n2
node S/V1/Q1/n3
node S/V1/Q2/n1
node S/V1/Q2/n2
denied R3 close S/V1/Q2/QB9
live
node S/V1/Q2/n3
by S/V1/Q2/E1
tap
node S/V1/Q2/n2
node S/V1/Q2/n1
node S/V1/W1/B
node S/V1/Q1/n1
node S/V1/Q1/n2
node S/V1/Q1/n3
tap
node S/V1/Q2/n3
bonded
node S/V1/W1/B
node S/V1/Q1/n1
node S/V1/Q1/n2
node S/V1/Q1/n3
node S/V1/Q2/n1
node S/V1/Q2/n2
denied R1 close S/V1/Q2/QC9
live
node S/V1/Q2/n3
by S/V1/Q2/E1
",
    },
    Row {
        on: b"0000?00000",
        words: "explain a.ssd a.csv",
        text: "denied R1 close S/V1/Q1/QC9
with on S/V1/Q1/E1
live
node S/V1/Q1/n3
by S/V1/Q1/E1
",
    },
];

// Compares what is written on the two feeders.
fn expect_all(rt: &impl Abort, alloc: Global, rows: &[Row]) -> Result<(), Fail> {
    for row in rows {
        let positions = positions_of(alloc, row.on)?;
        let want = (Status::Done, row.text.as_bytes(), "");
        let station = TWO_FEEDERS.as_bytes();
        expect(rt, alloc, row.words, station, positions.bytes(), want)?;
    }
    Ok(())
}

#[test]
fn known_positions(rt: HostRuntime) -> Result<(), Fail> {
    expect_all(&rt, rt.alloc(), ROWS)
}

#[test]
fn all_denied(rt: HostRuntime) -> Result<(), Fail> {
    expect_all(&rt, rt.alloc(), ALL_DENIED)
}

// With the coupler's breaker in between, feeder 1 on the first busbar and feeder 2 on the second: closing
// the disconnector to the second busbar breaks a rule with the coupler off alone, and opening that to the
// first with the coupler on alone.
const UNKNOWN: &[(&str, &str)] = &[
    (
        "explain a.ssd a.csv close S/V1/Q1/QB2",
        "denied R3 close S/V1/Q1/QB2
with off S/V1/K0/QA1
live
node S/V1/W2/B
node S/V1/Q2/n1
node S/V1/Q2/n2
node S/V1/Q2/n3
by S/V1/Q2/E1
tap
node S/V1/W2/B
node S/V1/Q2/n1
node S/V1/Q2/n2
node S/V1/Q2/n3
tap
node S/V1/Q1/n1
node S/V1/Q1/n2
node S/V1/Q1/n3
bonded
node S/V1/W2/B
node S/V1/K0/k2
node S/V1/Q2/n1
node S/V1/Q2/n2
node S/V1/Q2/n3
",
    ),
    (
        "explain a.ssd a.csv open S/V1/Q1/QB1",
        "denied R3 open S/V1/Q1/QB1
with on S/V1/K0/QA1
live
node S/V1/W1/B
node S/V1/K0/k1
node S/V1/K0/k2
node S/V1/W2/B
node S/V1/Q2/n1
node S/V1/Q2/n2
node S/V1/Q2/n3
by S/V1/Q2/E1
tap
node S/V1/W1/B
node S/V1/K0/k1
node S/V1/K0/k2
node S/V1/W2/B
node S/V1/Q2/n1
node S/V1/Q2/n2
node S/V1/Q2/n3
tap
node S/V1/Q1/n1
node S/V1/Q1/n2
node S/V1/Q1/n3
bonded
node S/V1/W1/B
node S/V1/W2/B
node S/V1/K0/k1
node S/V1/K0/k2
node S/V1/Q2/n1
node S/V1/Q2/n2
node S/V1/Q2/n3
",
    ),
];

#[test]
fn unknown_position(rt: HostRuntime) -> Result<(), Fail> {
    let alloc = rt.alloc();
    let positions = coupled(alloc, "intermediate")?;
    for (words, text) in UNKNOWN {
        let want = (Status::Done, text.as_bytes(), "");
        let station = DOUBLE_BUSBAR.as_bytes();
        expect(&rt, alloc, words, station, positions.bytes(), want)?;
    }
    Ok(())
}
