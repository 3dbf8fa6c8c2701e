//! What `check` writes on the drawings, and how it ends.
use crate::drawings::{BARE_STUB, DOUBLE_BUSBAR, TWO_TRANSFORMERS};
use ilk_base::{MemShelf, MemSink, MemSource, Memory, Text};
use interlock_cli::{Status, run};
use std::alloc::Global;
use std::process::Abort;
use std::test::Fail;
use test_stations::{AS_A_TOOL_WRITES, TWO_FEEDERS, words_of};

// Runs a line of words over the files a.ssd and a.csv, and compares the status, what went to `out` and
// what went to `err`.
pub(crate) fn expect(
    rt: &impl Abort,
    alloc: Global,
    line: &str,
    station: &[u8],
    positions: &[u8],
    want: (Status, &[u8], &str),
) -> Result<(), Fail> {
    let words = words_of(alloc, line)?;
    let mut shelf = MemShelf::new(alloc);
    shelf.put("a.ssd", station)?;
    shelf.put("a.csv", positions)?;
    let mut input = MemSource::new(alloc, b"", 1)?;
    let mut out = MemSink::new(alloc, 4000, 77)?;
    let mut err = MemSink::new(alloc, 100, 7)?;
    let status = run(alloc, &words, &mut shelf, &mut input, &mut out, &mut err);
    let (want_status, want_out, want_err) = want;
    assert!(rt; err.bytes() == want_err.as_bytes());
    assert!(rt; out.bytes() == want_out);
    assert!(rt; status == want_status);
    Ok(())
}

// The names of the ten switches of the two feeders, in document order.
const TEN: [&str; 10] = [
    "Q1/QB1", "Q1/QA1", "Q1/QB9", "Q1/QC9", "Q1/E1", "Q2/QB1", "Q2/QA1", "Q2/QB9", "Q2/QC9",
    "Q2/E1",
];

// A row on the two feeders: which switches are on, and for each switch the rule that opening it breaks
// and that closing it breaks, or a point.
#[derive(Clone, Copy)]
pub(crate) struct Row {
    pub(crate) on: &'static [u8; 10],
    opening: &'static [u8; 10],
    closing: &'static [u8; 10],
}

// Both feeders through: the four switches of each from the busbar to the line, and the infeeds, are on.
pub(crate) const BOTH_THROUGH: Row = Row {
    on: b"1110111101",
    opening: b"3.3..3.3..",
    closing: b"3.31.3.31.",
};

// All off; an infeed on; an earthing switch on; earthed behind an open breaker, apart from the busbar
// and on it; both feeders through.
const ROWS: &[Row] = &[
    Row {
        on: b"0000000000",
        opening: b"..........",
        closing: b"..........",
    },
    Row {
        on: b"0000100000",
        opening: b"..........",
        closing: b"...1......",
    },
    Row {
        on: b"0001000000",
        opening: b"..........",
        closing: b"....2.....",
    },
    Row {
        on: b"0011011101",
        opening: b"..........",
        closing: b"2...2...1.",
    },
    Row {
        on: b"1011011101",
        opening: b"..........",
        closing: b"2221222212",
    },
    BOTH_THROUGH,
];

// What is printed of a release, and of the rule that its denial breaks.
fn release_of(sign: u8) -> &'static str {
    if sign == b'.' { "1 " } else { "0 " }
}

fn rule_of(sign: u8) -> &'static str {
    match sign {
        b'1' => "R1 ",
        b'2' => "R2 ",
        b'3' => "R3 ",
        _ => "- ",
    }
}

// The word of a sign: on, lost or off.
fn word_of(sign: u8) -> &'static str {
    match sign {
        b'1' => ",on\n",
        b'?' => ",lost\n",
        _ => ",off\n",
    }
}

pub(crate) fn positions_of(alloc: Global, on: &[u8; 10]) -> Result<Text, Memory> {
    let mut positions = Text::new(alloc);
    for i in 0..10 {
        positions.push(b"S/V1/")?;
        positions.push(TEN[i].as_bytes())?;
        positions.push(word_of(on[i]).as_bytes())?;
    }
    Ok(positions)
}

pub(crate) fn lines_of(alloc: Global, row: &Row) -> Result<Text, Memory> {
    let mut text = Text::new(alloc);
    for i in 0..10 {
        text.push(release_of(row.opening[i]).as_bytes())?;
        text.push(release_of(row.closing[i]).as_bytes())?;
        text.push(rule_of(row.opening[i]).as_bytes())?;
        text.push(rule_of(row.closing[i]).as_bytes())?;
        text.push(b"S/V1/")?;
        text.push(TEN[i].as_bytes())?;
        text.push(b"\n")?;
    }
    Ok(text)
}

#[test]
fn releases_of_two_feeders(rt: HostRuntime) -> Result<(), Fail> {
    let alloc = rt.alloc();
    for row in ROWS {
        let positions = positions_of(alloc, row.on)?;
        let text = lines_of(alloc, row)?;
        let want = (Status::Done, text.bytes(), "");
        let line = "check a.ssd a.csv";
        expect(
            &rt,
            alloc,
            line,
            TWO_FEEDERS.as_bytes(),
            positions.bytes(),
            want,
        )?;
    }
    Ok(())
}

// Positions of the double busbar, but for the word of the coupler's breaker.
const COUPLED: &str = "S/V1/K0/QB1,on
S/V1/K0/QB2,on
S/V1/Q1/QB1,on
S/V1/Q1/QB2,off
S/V1/Q1/QA1,on
S/V1/Q1/QB9,on
S/V1/Q1/QC9,off
S/V1/Q1/E1,on
S/V1/Q2/QB1,off
S/V1/Q2/QB2,on
S/V1/Q2/QA1,on
S/V1/Q2/QB9,on
S/V1/Q2/QC9,off
S/V1/Q2/E1,on
S/V1/K0/QA1,";

// Positions in which the coupler is on, feeder 1 is on the first busbar and feeder 2 on the second, but
// for the coupler's breaker, whose word is given.
pub(crate) fn coupled(alloc: Global, coupler: &str) -> Result<Text, Memory> {
    let mut positions = Text::new(alloc);
    positions.push(COUPLED.as_bytes())?;
    positions.push(coupler.as_bytes())?;
    Ok(positions)
}

// Runs `check`, which is to be done and to have written these lines.
fn expect_lines(
    rt: &impl Abort,
    alloc: Global,
    station: &[u8],
    positions: &[u8],
    lines: &[&str],
) -> Result<(), Fail> {
    let words = words_of(alloc, "check a.ssd a.csv")?;
    let mut shelf = MemShelf::new(alloc);
    shelf.put("a.ssd", station)?;
    shelf.put("a.csv", positions)?;
    let mut input = MemSource::new(alloc, b"", 1)?;
    let mut out = MemSink::new(alloc, 4000, 4000)?;
    let mut err = MemSink::new(alloc, 100, 100)?;
    let status = run(alloc, &words, &mut shelf, &mut input, &mut out, &mut err);
    assert!(rt; status == Status::Done);
    let text = str::from_utf8(out.bytes()).unwrap_or("");
    for line in lines {
        assert!(rt; text.contains(*line), "{line}");
    }
    Ok(())
}

#[test]
fn releases_over_every_reading(rt: HostRuntime) -> Result<(), Fail> {
    let alloc = rt.alloc();
    let station = DOUBLE_BUSBAR.as_bytes();
    let known = coupled(alloc, "on")?;
    expect_lines(
        &rt,
        alloc,
        station,
        known.bytes(),
        &["1 1 - - S/V1/Q1/QB2\n"],
    )?;
    let unknown = coupled(alloc, "intermediate")?;
    let lines = [
        "0 0 R3 R3 S/V1/Q1/QB2\n+ open off S/V1/K0/QA1\n+ close off S/V1/K0/QA1\n",
        "0 0 R3 R3 S/V1/Q1/QB1\n+ open on S/V1/K0/QA1\n+ close on S/V1/K0/QA1\n",
    ];
    expect_lines(&rt, alloc, station, unknown.bytes(), &lines)?;
    let station = TWO_FEEDERS.as_bytes();
    let positions =
        b"S/V1/Q1/QA1,on\nS/V1/Q1/QB9,on\nS/V1/Q1/E1,on\nS/V1/Q2/QB1,on\nS/V1/Q2/QC9,bad\nS/V1/Q1/QB1,off\n\
            S/V1/Q1/QC9,off\nS/V1/Q2/QA1,off\nS/V1/Q2/QB9,off\nS/V1/Q2/E1,off\n";
    expect_lines(&rt, alloc, station, positions, &["1 1 - - S/V1/Q1/QB1\n"])?;
    Ok(())
}

#[test]
fn whole_answers(rt: HostRuntime) -> Result<(), Fail> {
    let alloc = rt.alloc();
    for (station, positions, text) in [
        (b"<SCL/>".as_slice(), "", ""),
        (
            BARE_STUB.as_bytes(),
            "S/V1/Q1/QB1,off\nS/V1/Q1/QB2,intermediate\nS/V1/Q1/E1,on\n",
            "1 1 - - S/V1/Q1/QB1\n1 1 - - S/V1/Q1/QB2\n1 1 - - S/V1/Q1/E1\n",
        ),
        (
            TWO_TRANSFORMERS.as_bytes(),
            "S/V1/Q1/QB1,on\nS/V1/Q1/E1,on\n",
            "0 0 R3 R3 S/V1/Q1/QB1\n1 1 - - S/V1/Q1/E1\n",
        ),
        (
            AS_A_TOOL_WRITES.as_bytes(),
            "S/V1/Q1/QC9,off\r\nS/V1/Q1/E1,on",
            "1 0 - R1 S/V1/Q1/QC9\n1 1 - - S/V1/Q1/E1\n",
        ),
    ] {
        let want = (Status::Done, text.as_bytes(), "");
        expect(
            &rt,
            alloc,
            "check a.ssd a.csv",
            station,
            positions.as_bytes(),
            want,
        )?;
    }
    Ok(())
}
